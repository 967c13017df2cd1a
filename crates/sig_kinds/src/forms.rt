//! The table of the forms of expressions: the kinds of their operands, their own kind, and which
//! operands may be constants.

ghost use Rattle.std.specs.Prelude.{◌≡◌, ◌↔◌, None, Some, IsTrue};
ghost use Rattle.sig_tree.specs.Kinds.{unary_row, binary_row, delay_row, cell_row, accepts, kind_of_result, unary_kind, binary_kind, is_integer, is_truth, stored, merged, Takes};
ghost use Rattle.sig_kinds.specs.Forms.{form_in, operand_rule_in, result_rule_in, unary_refused, binary_refused};

use sig_base::Kind;
use sig_tree::{BinOp, UnOp};

/// What the kinds of a form's operands must be.
#[derive(Clone, Copy)]
pub enum OperandRule {
    Integers,
    /// Booleans or events.
    Truths,
    /// Both integer, or both a truth.
    Alike,
    /// Any, and then a truth.
    AnyThenTruth,
    Any,
}

/// The kind of a form.
#[derive(Clone, Copy)]
pub enum ResultRule {
    Always(Kind),
    /// That of the first operand.
    OfFirst,
    /// That of the first operand, but boolean for an event.
    Stored,
    /// Integer; event where both operands are; else boolean.
    Merged,
}

/// Which of a form's operands may be constants.
#[derive(Clone, Copy)]
pub enum ConstantRule {
    NoConstant,
    OneConstant,
    FirstConstant,
}

/// A row of the table.
#[derive(Clone, Copy)]
pub struct Form {
    pub operands: OperandRule,
    pub result: ResultRule,
    pub constants: ConstantRule,
}

/// The form of an operator with one operand.
pub fn unary_form(op: UnOp) -> Form
    ensures { form_in result ≡ unary_row op }
{
    let (operands, result) = match op {
        UnOp::Not => (OperandRule::Truths, ResultRule::Always(Kind::Boolean)),
        UnOp::Neg => (OperandRule::Integers, ResultRule::Always(Kind::Integer)),
        UnOp::When => (OperandRule::Truths, ResultRule::Always(Kind::Event)),
        UnOp::Clock => (OperandRule::Any, ResultRule::Always(Kind::Event)),
    };
    Form {
        operands,
        result,
        constants: ConstantRule::NoConstant,
    }
}

/// The form of an operator with two operands.
pub fn binary_form(op: BinOp) -> Form
    ensures { form_in result ≡ binary_row op }
{
    match op {
        BinOp::Default => Form {
            operands: OperandRule::Alike,
            result: ResultRule::Merged,
            constants: ConstantRule::NoConstant,
        },
        BinOp::When => Form {
            operands: OperandRule::AnyThenTruth,
            result: ResultRule::OfFirst,
            constants: ConstantRule::FirstConstant,
        },
        BinOp::Plus | BinOp::Meet | BinOp::Less => Form {
            operands: OperandRule::Any,
            result: ResultRule::Always(Kind::Event),
            constants: ConstantRule::NoConstant,
        },
        BinOp::Or | BinOp::Xor | BinOp::And => operation(OperandRule::Truths, Kind::Boolean),
        BinOp::Eq | BinOp::Ne => operation(OperandRule::Alike, Kind::Boolean),
        BinOp::Lt | BinOp::Le | BinOp::Gt | BinOp::Ge => {
            operation(OperandRule::Integers, Kind::Boolean)
        }
        BinOp::Add | BinOp::Sub | BinOp::Mul | BinOp::Div | BinOp::Mod => {
            operation(OperandRule::Integers, Kind::Integer)
        }
    }
}

/// A form of which one operand may be a constant.
fn operation(operands: OperandRule, kind: Kind) -> Form
    ensures operands { result.operands ≡ operands }
    ensures result { result.result ≡ ResultRule.Always kind }
    ensures constants { result.constants ≡ ConstantRule.OneConstant }
{
    Form {
        operands,
        result: ResultRule::Always(kind),
        constants: ConstantRule::OneConstant,
    }
}

/// The form of a delay.
pub fn delay_form() -> Form
    ensures { form_in result ≡ delay_row }
{
    Form {
        operands: OperandRule::Any,
        result: ResultRule::Stored,
        constants: ConstantRule::NoConstant,
    }
}

/// The form of `cell`.
pub fn cell_form() -> Form
    ensures { form_in result ≡ cell_row }
{
    Form {
        operands: OperandRule::AnyThenTruth,
        result: ResultRule::Stored,
        constants: ConstantRule::NoConstant,
    }
}

/// Whether a kind is integer.
fn is_integer(kind: Kind) -> bool
    ensures { result ≡ is_integer kind }
{
    match kind {
        Kind::Integer => true,
        Kind::Boolean | Kind::Event => false,
    }
}

/// Whether a kind is boolean or event.
fn is_truth(kind: Kind) -> bool
    ensures { result ≡ is_truth kind }
{
    match kind {
        Kind::Integer => false,
        Kind::Boolean | Kind::Event => true,
    }
}

/// The kind of what is kept: boolean for an event.
fn stored(kind: Kind) -> Kind
    ensures { result ≡ stored kind }
{
    match kind {
        Kind::Integer => Kind::Integer,
        Kind::Boolean | Kind::Event => Kind::Boolean,
    }
}

/// The kind of what is merged.
fn merged(first: Kind, second: Kind) -> Kind
    ensures { result ≡ merged first second }
{
    match (first, second) {
        (Kind::Integer, _) => Kind::Integer,
        (Kind::Event, Kind::Event) => Kind::Event,
        (Kind::Boolean, _) | (Kind::Event, Kind::Integer | Kind::Boolean) => Kind::Boolean,
    }
}

/// Whether a rule accepts the kind of one operand.
fn accepts_one(rule: OperandRule, first: Kind) -> bool
    ensures { result ≡ accepts (operand_rule_in rule) first None }
{
    match rule {
        OperandRule::Integers => is_integer(first),
        OperandRule::Truths => is_truth(first),
        OperandRule::Alike | OperandRule::AnyThenTruth | OperandRule::Any => true,
    }
}

/// Whether a rule accepts the kinds of two operands.
fn accepts_two(rule: OperandRule, first: Kind, second: Kind) -> bool
    ensures { result ≡ accepts (operand_rule_in rule) first (Some second) }
{
    match rule {
        OperandRule::Integers => is_integer(first) && is_integer(second),
        OperandRule::Truths => is_truth(first) && is_truth(second),
        OperandRule::Alike => {
            (is_integer(first) && is_integer(second)) || (is_truth(first) && is_truth(second))
        }
        OperandRule::AnyThenTruth => is_truth(second),
        OperandRule::Any => true,
    }
}

/// The kind of a form with one operand.
fn result_of_one(rule: ResultRule, first: Kind) -> Kind
    ensures { result ≡ kind_of_result (result_rule_in rule) first None }
{
    match rule {
        ResultRule::Always(kind) => kind,
        ResultRule::OfFirst | ResultRule::Merged => first,
        ResultRule::Stored => stored(first),
    }
}

/// The kind of a form with two operands.
fn result_of_two(rule: ResultRule, first: Kind, second: Kind) -> Kind
    ensures { result ≡ kind_of_result (result_rule_in rule) first (Some second) }
{
    match rule {
        ResultRule::Always(kind) => kind,
        ResultRule::OfFirst => first,
        ResultRule::Stored => stored(first),
        ResultRule::Merged => merged(first, second),
    }
}

impl Form {
    /// The kind of the form with one operand, where it has one.
    pub fn kind_of_one(self, first: Option<Kind>) -> Option<Kind>
        ensures { result ≡ unary_kind (form_in self) first }
    {
        match first {
            Some(first) if accepts_one(self.operands, first) => {
                Some(result_of_one(self.result, first))
            }
            _ => None,
        }
    }

    /// The kind of the form with two operands, where it has one.
    pub fn kind_of_two(self, first: Option<Kind>, second: Option<Kind>) -> Option<Kind>
        ensures { result ≡ binary_kind (form_in self) first second }
    {
        match (first, second) {
            (Some(first), Some(second)) if accepts_two(self.operands, first, second) => {
                Some(result_of_two(self.result, first, second))
            }
            _ => None,
        }
    }

    /// Whether the operand has a kind that the form does not accept.
    pub fn refuses_one(self, first: Option<Kind>) -> bool
        ensures { result ≡ unary_refused (form_in self) first }
    {
        match first {
            Some(first) => !accepts_one(self.operands, first),
            None => false,
        }
    }

    /// Whether both operands have kinds, which the form does not accept.
    pub fn refuses_two(self, first: Option<Kind>, second: Option<Kind>) -> bool
        ensures { result ≡ binary_refused (form_in self) first second }
    {
        match (first, second) {
            (Some(first), Some(second)) => !accepts_two(self.operands, first, second),
            _ => false,
        }
    }
}

/// Whether a signal of a kind takes what is of the other kind.
pub fn takes(wanted: Kind, given: Kind) -> bool
    ensures { IsTrue result ↔ Takes wanted given }
{
    match (wanted, given) {
        (Kind::Integer, Kind::Integer)
        | (Kind::Boolean, Kind::Boolean | Kind::Event)
        | (Kind::Event, Kind::Event) => true,
        _ => false,
    }
}
