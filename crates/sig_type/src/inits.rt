//! Delays without an init.

ghost use Rattle.std.specs.Prelude.{◌≡◌, ◌↔◌};
ghost use Rattle.sig_type.specs.Prelude.{IsTrue, map, AllByRecursion, expression_of, equations_of, right_side_of, Defines, each, declaration_of, HasInit, missing_init, missing_inits, missing_inits_of_right, missing_inits_of_equation, bodies_in};
ghost use Rattle.sig_type.specs.inner.Findings.{Finds};

use crate::finding::{Finding, First};
use sig_base::Span;
use sig_scope::Scope;
use sig_tree::{Body, Constant, Expr, Name, Right};

/// A delay's own init, where it may be missing or not.
fn own_init<'a>(init: &Option<Constant>, missing: bool, at: Span, first: &mut First<'a>)
    ensures { Finds first.old first.new (missing_init init.now at (IsTrue missing)) }
{
    if init.is_none() {
        first.ask(missing, Finding::NoInit(at));
    }
}

/// The delays in an expression.
fn expression<'a>(e: &Expr, first: &mut First<'a>)
    ensures { Finds first.old first.new (missing_inits (expression_of e.now)) }
{
    match e {
        Expr::Name(_) | Expr::Int(..) | Expr::Bool(..) => {}
        Expr::Unary(_, operand, _) => expression(operand, first),
        Expr::Binary(_, left, right, _) => {
            expression(left, first);
            expression(right, first);
        }
        Expr::Delay(operand, init, at) => {
            expression(operand, first);
            own_init(init, true, *at, first);
        }
        Expr::Cell(operand, held, _, _) => {
            expression(operand, first);
            expression(held, first);
        }
    }
}

/// The delays in expressions.
fn expressions<'a>(all: &[Expr], first: &mut First<'a>)
    ensures { Finds first.old first.new (each missing_inits (map expression_of all.now)) }
{
    for one in all {
        expression(one, first);
    }
}

/// Whether all names are declared with an init.
fn all_have_init(scope: &Scope, names: &[Name]) -> bool
    ensures { IsTrue result ↔ AllByRecursion (λ name. HasInit (declaration_of scope.now name.text)) names.now }
{
    for name in names {
        if !scope.has_init(name) {
            return false;
        }
    }
    true
}

/// A whole right side; a delay there may use the init of what it defines.
fn right_side<'a>(scope: &Scope, names: &[Name], e: &Expr, first: &mut First<'a>)
    ensures { Finds first.old first.new (missing_inits_of_right (AllByRecursion (λ name. HasInit (declaration_of scope.now name.text)) names.now → ⊥) (expression_of e.now)) }
{
    match e {
        Expr::Delay(operand, init, at) => {
            expression(operand, first);
            own_init(init, !all_have_init(scope, names), *at, first);
        }
        _ => expression(e, first),
    }
}

/// A definition.
fn definition<'a>(scope: &Scope, names: &[Name], right: &Right, first: &mut First<'a>)
    ensures { Finds first.old first.new (missing_inits_of_equation scope.now (Defines names.now (right_side_of right.now))) }
{
    match right {
        Right::Value(e) => right_side(scope, names, e, first),
        Right::Call(_, _, arguments) => expressions(arguments, first),
    }
}

/// An equation.
fn equation<'a>(scope: &Scope, body: &Body, first: &mut First<'a>)
    ensures { Finds first.old first.new (missing_inits_of_equation scope.now (equations_of body.now)) }
{
    match body {
        Body::All(_) => {}
        Body::Def(names, right) => definition(scope, names, right, first),
        Body::Same(operands) => expressions(operands, first),
    }
}

/// The missing inits of a process's equations.
pub fn missing_inits<'a>(scope: &Scope, all: &[&'a Body], first: &mut First<'a>)
    ensures { Finds first.old first.new (each (missing_inits_of_equation scope.now) (bodies_in all.now)) }
{
    for one in all {
        equation(scope, *one, first);
    }
}
