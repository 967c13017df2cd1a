//! The levels of expressions, from the loosest to the tightest.

ghost use Rattle.std.specs.Prelude.{◌≡◌};
ghost use Rattle.sig_print.specs.Prelude.{nat_lt, unary_level, operand_level, binary_level, left_level, right_level, level_of, expression_of};
ghost use Rattle.sig_print.specs.inner.Levels.{level_number};

use sig_tree::{BinOp, Expr, UnOp};

/// A level of expressions. An expression may stand without parentheses wherever its own level or a
/// looser one is asked for.
#[derive(Clone, Copy, Debug, PartialEq, Eq)]
pub enum Level {
    Default = 0,
    Mixed = 1,
    Clock = 2,
    Or = 3,
    And = 4,
    Not = 5,
    Relation = 6,
    Sum = 7,
    Product = 8,
    Minus = 9,
    Delay = 10,
    Primary = 11,
}

/// The level of an operator with one operand.
pub fn unary_level(op: UnOp) -> Level
    ensures { level_number result ≡ unary_level op }
{
    match op {
        UnOp::When => Level::Mixed,
        UnOp::Not => Level::Not,
        UnOp::Neg => Level::Minus,
        UnOp::Clock => Level::Primary,
    }
}

/// The level of its operand.
pub fn operand_level(op: UnOp) -> Level
    ensures { level_number result ≡ operand_level op }
{
    match op {
        UnOp::When => Level::Clock,
        UnOp::Not => Level::Not,
        UnOp::Neg => Level::Minus,
        UnOp::Clock => Level::Primary,
    }
}

/// The level of an operator with two operands.
pub fn binary_level(op: BinOp) -> Level
    ensures { level_number result ≡ binary_level op }
{
    match op {
        BinOp::Default => Level::Default,
        BinOp::When => Level::Mixed,
        BinOp::Plus | BinOp::Meet | BinOp::Less => Level::Clock,
        BinOp::Or | BinOp::Xor => Level::Or,
        BinOp::And => Level::And,
        BinOp::Eq | BinOp::Ne | BinOp::Lt | BinOp::Le | BinOp::Gt | BinOp::Ge => Level::Relation,
        BinOp::Add | BinOp::Sub => Level::Sum,
        BinOp::Mul | BinOp::Div | BinOp::Mod => Level::Product,
    }
}

/// The level of its left operand.
pub fn left_level(op: BinOp) -> Level
    ensures { level_number result ≡ left_level op }
{
    match op {
        BinOp::Eq | BinOp::Ne | BinOp::Lt | BinOp::Le | BinOp::Gt | BinOp::Ge => Level::Sum,
        _ => binary_level(op),
    }
}

/// The level of its right operand.
pub fn right_level(op: BinOp) -> Level
    ensures { level_number result ≡ right_level op }
{
    match op {
        BinOp::Default => Level::Mixed,
        BinOp::When => Level::Clock,
        BinOp::Plus | BinOp::Meet | BinOp::Less => Level::Or,
        BinOp::Or | BinOp::Xor => Level::And,
        BinOp::And => Level::Not,
        BinOp::Eq | BinOp::Ne | BinOp::Lt | BinOp::Le | BinOp::Gt | BinOp::Ge => Level::Sum,
        BinOp::Add | BinOp::Sub => Level::Product,
        BinOp::Mul | BinOp::Div | BinOp::Mod => Level::Minus,
    }
}

/// The level at which an expression stands.
pub fn level_of(e: &Expr) -> Level
    ensures { level_number result ≡ level_of (expression_of e.now) }
{
    match e {
        Expr::Name(_) | Expr::Int(_, _) | Expr::Bool(_, _) => Level::Primary,
        Expr::Unary(op, _, _) => unary_level(*op),
        Expr::Binary(op, _, _, _) => binary_level(*op),
        Expr::Delay(_, _, _) => Level::Delay,
        Expr::Cell(_, _, _, _) => Level::Mixed,
    }
}

/// Whether a level is looser than another.
pub fn is_looser(level: Level, wanted: Level) -> bool
    ensures { result ≡ nat_lt (level_number level) (level_number wanted) }
{
    (level as u8) < (wanted as u8)
}
