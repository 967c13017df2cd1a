//! Constants that stand where none may.

ghost use Rattle.std.specs.Prelude.{◌≡◌, ◌↔◌, ◌∷◌};
ghost use Rattle.sig_type.specs.Prelude.{[], List, IsTrue, true, false, map, Name, expression_of, equations_of, right_side_of, Defines, each, is_constant, is_negative_number, MayNotBeFirst, MayNotBeSecond, bare_operands, bare_in_expression, bare_alone, bare_in_equation, form_in, bodies_in};
ghost use Rattle.sig_tree.specs.Rules.{place_of};
ghost use Rattle.sig_type.specs.inner.Findings.{Finds};

use crate::finding::{Finding, First};
use sig_base::Span;
use sig_kinds::{ConstantRule, Form, binary_form, cell_form};
use sig_scope::Scope;
use sig_tree::{Body, Expr, Right, UnOp};

/// Whether an expression is a constant: a number, `-` directly on a number, a truth, or a parameter.
fn is_constant(scope: &Scope, e: &Expr) -> bool
    ensures { result ≡ is_constant scope.now (expression_of e.now) }
{
    match e {
        Expr::Name(name) => scope.parameter_kind(name).is_some(),
        Expr::Int(..) | Expr::Bool(..) => true,
        Expr::Unary(op, operand, _) => is_negative_number(*op, operand),
        Expr::Binary(..) | Expr::Delay(..) | Expr::Cell(..) => false,
    }
}

/// Whether an operator and its operand are `-` and a number.
fn is_negative_number(op: UnOp, operand: &Expr) -> bool
    ensures { result ≡ is_negative_number op (expression_of operand.now) }
{
    match op {
        UnOp::Neg => matches!(operand, Expr::Int(..)),
        UnOp::Not | UnOp::When | UnOp::Clock => false,
    }
}

/// The place of an expression.
fn place_of(e: &Expr) -> Span
    ensures { result ≡ place_of (expression_of e.now) }
{
    match e {
        Expr::Name(name) => name.at,
        Expr::Int(_, at)
        | Expr::Bool(_, at)
        | Expr::Unary(_, _, at)
        | Expr::Binary(_, _, _, at)
        | Expr::Delay(_, _, at)
        | Expr::Cell(_, _, _, at) => *at,
    }
}

/// Whether a constant as the first operand alone is refused.
fn refuses_first(form: Form, left: bool, right: bool) -> bool
    ensures { IsTrue result ↔ (MayNotBeFirst (form_in form).constants × (left ≡ true) × (right ≡ false)) }
{
    match form.constants {
        ConstantRule::NoConstant => left && !right,
        ConstantRule::OneConstant | ConstantRule::FirstConstant => false,
    }
}

/// Whether a constant as the second operand alone is refused.
fn refuses_second(form: Form, left: bool, right: bool) -> bool
    ensures { IsTrue result ↔ (MayNotBeSecond (form_in form).constants × (left ≡ false) × (right ≡ true)) }
{
    match form.constants {
        ConstantRule::NoConstant | ConstantRule::FirstConstant => !left && right,
        ConstantRule::OneConstant => false,
    }
}

/// Whether both operands are constants.
fn are_both(left: bool, right: bool) -> bool
    ensures { IsTrue result ↔ ((left ≡ true) × (right ≡ true)) }
{
    left && right
}

/// Whether the operand of an operator is a constant, and both together are none.
fn is_bare_operand(scope: &Scope, op: UnOp, operand: &Expr) -> bool
    ensures { IsTrue result ↔ ((is_constant scope.now (expression_of operand.now) ≡ true) × (is_negative_number op (expression_of operand.now) ≡ false)) }
{
    is_constant(scope, operand) && !is_negative_number(op, operand)
}

/// The two operands of a form by themselves.
fn operands<'a>(
    form: Form,
    scope: &Scope,
    left: &Expr,
    right: &Expr,
    at: Span,
    first: &mut First<'a>,
)
    ensures { Finds first.old first.new (bare_operands (form_in form) scope.now (expression_of left.now) (expression_of right.now) at [] []) }
{
    let left_is = is_constant(scope, left);
    let right_is = is_constant(scope, right);
    first.ask(
        refuses_first(form, left_is, right_is),
        Finding::BareConstant(place_of(left)),
    );
    first.ask(are_both(left_is, right_is), Finding::BareConstant(at));
    first.ask(
        refuses_second(form, left_is, right_is),
        Finding::BareConstant(place_of(right)),
    );
}

/// The constants inside an expression.
fn inside<'a>(scope: &Scope, e: &Expr, first: &mut First<'a>)
    ensures { Finds first.old first.new (bare_in_expression scope.now (expression_of e.now)) }
{
    match e {
        Expr::Name(_) | Expr::Int(..) | Expr::Bool(..) => {}
        Expr::Unary(op, operand, at) => {
            first.ask(
                is_bare_operand(scope, *op, operand),
                Finding::BareConstant(*at),
            );
            inside(scope, operand, first);
        }
        Expr::Binary(op, left, right, at) => {
            inside(scope, left, first);
            operands(binary_form(*op), scope, left, right, *at, first);
            inside(scope, right, first);
        }
        Expr::Delay(operand, _, at) => {
            inside(scope, operand, first);
            first.ask(is_constant(scope, operand), Finding::BareConstant(*at));
        }
        Expr::Cell(operand, held, _, at) => {
            inside(scope, operand, first);
            operands(cell_form(), scope, operand, held, *at, first);
            inside(scope, held, first);
        }
    }
}

/// An expression that may not be a constant itself.
fn alone<'a>(scope: &Scope, e: &Expr, first: &mut First<'a>)
    ensures { Finds first.old first.new (bare_alone scope.now (expression_of e.now)) }
{
    first.ask(is_constant(scope, e), Finding::BareConstant(place_of(e)));
    inside(scope, e, first);
}

/// Expressions of which none may be a constant.
fn each_alone<'a>(scope: &Scope, all: &[Expr], first: &mut First<'a>)
    ensures { Finds first.old first.new (each (bare_alone scope.now) (map expression_of all.now)) }
{
    for one in all {
        alone(scope, one, first);
    }
}

/// A right side.
fn right_side<'a>(scope: &Scope, right: &Right, first: &mut First<'a>)
    ensures { (names : List Name) → Finds first.old first.new (bare_in_equation scope.now (Defines names (right_side_of right.now))) }
{
    match right {
        Right::Value(e) => alone(scope, e, first),
        Right::Call(_, _, arguments) => each_alone(scope, arguments, first),
    }
}

/// An equation.
fn equation<'a>(scope: &Scope, body: &Body, first: &mut First<'a>)
    ensures { Finds first.old first.new (bare_in_equation scope.now (equations_of body.now)) }
{
    match body {
        Body::All(_) => {}
        Body::Def(_, right) => right_side(scope, right, first),
        Body::Same(operands) => each_alone(scope, operands, first),
    }
}

/// The bare constants of a process's equations.
pub fn bare_constants<'a>(scope: &Scope, all: &[&'a Body], first: &mut First<'a>)
    ensures { Finds first.old first.new (each (bare_in_equation scope.now) (bodies_in all.now)) }
{
    for one in all {
        equation(scope, *one, first);
    }
}
