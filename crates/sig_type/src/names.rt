//! The names that a process uses, each of which has to be known.

ghost use Rattle.std.specs.Prelude.{◌≡◌, ◌∷◌};
ghost use Rattle.sig_type.specs.Prelude.{[], map, List, flat_map, expression_of, right_side_of, equations_of, model_of, each, names_of_constant, names_of_init, names_of_expression, uses_of_right, uses_of_equation, uses_of_inits, declarations_in, bodies_in, interface_models};
ghost use Rattle.sig_type.specs.inner.Findings.{Finds};
ghost use Rattle.sig_type.specs.inner.Unknown.{unknown_signals, unknown_uses, unknown_in};

use crate::finding::{Finding, First};
use sig_scope::{Declared, Interface, Processes, Scope};
use sig_tree::{Body, Constant, Expr, Name, Right};

/// A name that is used for a signal or a parameter.
fn name<'a>(scope: &Scope, name: &'a Name, first: &mut First<'a>)
    ensures { Finds first.old first.new (unknown_signals scope.now (name.now ∷ [])) }
{
    first.ask(scope.lacks(name), Finding::Unknown(name));
}

/// The names of a list.
fn names<'a>(scope: &Scope, names: &'a [Name], first: &mut First<'a>)
    ensures { Finds first.old first.new (unknown_signals scope.now names.now) }
{
    for one in names {
        name(scope, one, first);
    }
}

/// The name in a constant.
fn constant<'a>(scope: &Scope, constant: &'a Constant, first: &mut First<'a>)
    ensures { Finds first.old first.new (unknown_signals scope.now (names_of_constant constant.now)) }
{
    if let Constant::Param(one) = constant {
        name(scope, one, first);
    }
}

/// The name in an init, where there is one.
fn init<'a>(scope: &Scope, init: &'a Option<Constant>, first: &mut First<'a>)
    ensures { Finds first.old first.new (unknown_signals scope.now (names_of_init init.now)) }
{
    if let Some(value) = init {
        constant(scope, value, first);
    }
}

/// The names in an expression.
fn expression<'a>(scope: &Scope, e: &'a Expr, first: &mut First<'a>)
    ensures { Finds first.old first.new (unknown_signals scope.now (names_of_expression (expression_of e.now))) }
{
    match e {
        Expr::Name(one) => name(scope, one, first),
        Expr::Int(..) | Expr::Bool(..) => {}
        Expr::Unary(_, operand, _) => expression(scope, operand, first),
        Expr::Binary(_, left, right, _) => {
            expression(scope, left, first);
            expression(scope, right, first);
        }
        Expr::Delay(operand, value, _) => {
            expression(scope, operand, first);
            init(scope, value, first);
        }
        Expr::Cell(operand, held, value, _) => {
            expression(scope, operand, first);
            expression(scope, held, first);
            constant(scope, value, first);
        }
    }
}

/// The names in constants.
fn constants<'a>(scope: &Scope, all: &'a [Constant], first: &mut First<'a>)
    ensures { Finds first.old first.new (unknown_signals scope.now (flat_map names_of_constant all.now)) }
{
    for one in all {
        constant(scope, one, first);
    }
}

/// The names in expressions.
fn expressions<'a>(scope: &Scope, all: &'a [Expr], first: &mut First<'a>)
    ensures { Finds first.old first.new (unknown_signals scope.now (flat_map names_of_expression (map expression_of all.now))) }
{
    for one in all {
        expression(scope, one, first);
    }
}

/// The names in a right side.
fn right_side<'a>(processes: &Processes, scope: &Scope, right: &'a Right, first: &mut First<'a>)
    ensures { Finds first.old first.new (unknown_uses (interface_models processes.now.interfaces.items) scope.now (uses_of_right (right_side_of right.now))) }
{
    match right {
        Right::Value(e) => expression(scope, e, first),
        Right::Call(called, values, arguments) => {
            first.ask(processes.lacks(called), Finding::Unknown(called));
            constants(scope, values, first);
            expressions(scope, arguments, first);
        }
    }
}

/// The names in an equation.
fn equation<'a>(processes: &Processes, scope: &Scope, body: &'a Body, first: &mut First<'a>)
    ensures { Finds first.old first.new (unknown_uses (interface_models processes.now.interfaces.items) scope.now (uses_of_equation (equations_of body.now))) }
{
    match body {
        Body::All(_) => {}
        Body::Def(left, right) => {
            names(scope, left, first);
            right_side(processes, scope, right, first);
        }
        Body::Same(operands) => expressions(scope, operands, first),
    }
}

/// The names in equations.
fn equations<'a>(processes: &Processes, scope: &Scope, all: &[&'a Body], first: &mut First<'a>)
    ensures { Finds first.old first.new (unknown_uses (interface_models processes.now.interfaces.items) scope.now (flat_map uses_of_equation (bodies_in all.now))) }
{
    for one in all {
        equation(processes, scope, *one, first);
    }
}

/// The names in the inits of declarations.
fn inits<'a>(scope: &Scope, declared: &[Declared<'a>], first: &mut First<'a>)
    ensures { Finds first.old first.new (unknown_signals scope.now (flat_map (λ d. names_of_init d.init) (declarations_in declared.now))) }
{
    for one in declared {
        init(scope, one.init, first);
    }
}

/// The unknown names of a process.
pub fn unknown_names<'a>(
    processes: &Processes,
    scope: &Scope,
    interface: &Interface<'a>,
    body: &[&'a Body],
    first: &mut First<'a>,
)
    ensures { Finds first.old first.new (unknown_in (interface_models processes.now.interfaces.items) scope.now (declarations_in interface.now.outputs.items) (bodies_in body.now) (declarations_in interface.now.locals.items)) }
{
    inits(scope, &interface.outputs, first);
    equations(processes, scope, body, first);
    inits(scope, &interface.locals, first);
}
