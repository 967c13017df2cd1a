//! The numbers of constants, arguments and left sides.

ghost use Rattle.std.specs.Prelude.{◌≡◌, ◌≢◌, ◌↔◌, ◌∷◌};
ghost use Rattle.sig_type.specs.Prelude.{[], IsTrue, Some, map, expression_of, right_side_of, equations_of, model_of, Defines, BadCall, candidate, each, process_of, DiffersFrom, bad_calls_of, bodies_in, interface_models};
ghost use Rattle.sig_type.specs.inner.Findings.{Finds};

use crate::finding::{Finding, First};
use sig_scope::{Interface, Processes};
use sig_tree::{Body, Constant, Expr, Name, Right};

/// Whether the numbers of a call are not those of the called process.
fn differs_from(
    called: &Interface,
    names: &[Name],
    constants: &[Constant],
    arguments: &[Expr],
) -> bool
    ensures { IsTrue result ↔ DiffersFrom names.now constants.now (map expression_of arguments.now) (Some (model_of called.now.process.now)) }
{
    constants.len() != called.params.len()
        || arguments.len() != called.inputs.len()
        || names.len() != called.outputs.len()
}

/// Whether there are any names.
fn are_some(names: &[Name]) -> bool
    ensures { IsTrue result ↔ (names.now ≢ []) }
{
    match names {
        [] => false,
        [_, ..] => true,
    }
}

/// A call.
fn call<'a>(
    processes: &Processes,
    names: &[Name],
    name: &'a Name,
    constants: &[Constant],
    arguments: &[Expr],
    first: &mut First<'a>,
)
    ensures { Finds first.old first.new
        (candidate (BadCall name.now) (DiffersFrom names.now constants.now (map expression_of arguments.now) (process_of (interface_models processes.now.interfaces.items) name.now.text)) ∷ []) }
{
    if let Some(called) = processes.get(name.text.as_bytes()) {
        first.ask(
            differs_from(called, names, constants, arguments),
            Finding::BadCall(name),
        );
    }
}

/// A definition.
fn definition<'a>(processes: &Processes, names: &'a [Name], right: &'a Right, first: &mut First<'a>)
    ensures { Finds first.old first.new (bad_calls_of (interface_models processes.now.interfaces.items) (Defines names.now (right_side_of right.now))) }
{
    if let Some((leftmost, others)) = names.split_first() {
        match right {
            Right::Value(_) => first.ask(are_some(others), Finding::BadCall(leftmost)),
            Right::Call(name, constants, arguments) => {
                call(processes, names, name, constants, arguments, first);
            }
        }
    }
}

/// An equation.
fn equation<'a>(processes: &Processes, body: &'a Body, first: &mut First<'a>)
    ensures { Finds first.old first.new (bad_calls_of (interface_models processes.now.interfaces.items) (equations_of body.now)) }
{
    match body {
        Body::All(_) | Body::Same(_) => {}
        Body::Def(names, right) => definition(processes, names, right, first),
    }
}

/// The bad calls of a process's equations.
pub fn bad_calls<'a>(processes: &Processes, all: &[&'a Body], first: &mut First<'a>)
    ensures { Finds first.old first.new (each (bad_calls_of (interface_models processes.now.interfaces.items)) (bodies_in all.now)) }
{
    for one in all {
        equation(processes, *one, first);
    }
}
