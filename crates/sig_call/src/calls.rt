//! Equations, of which each call is replaced by the body of what it calls.

ghost use Rattle.std.specs.Prelude.{◌≡◌, ◌≢◌, ◌+◌, ◌++◌, ◌<◌, ◌≤◌, ◌∷◌};
ghost use Rattle.sig_call.specs.Prelude.{[], length, map, IfOk, OnOk, AllByRecursion, model_of, equations_of, right_side_of, Defines, pragmas_of_model, outputs_of, with_copy, called_copy, interface_models, bodies_in, IsLow, IsReady, AreExpandable};
ghost use Rattle.sig_call.specs.inner.Calling.{call_of};
ghost use Rattle.sig_call.specs.inner.Copies.{copy_in};
ghost use Rattle.sig_call.specs.inner.MadeOf.{made_of};
ghost use Rattle.sig_call.specs.Making.{IsRefused, Advances, NeedsMore, with_progress};

use crate::answer::CallAnswer;
use crate::copy::{ProcessCopy, prefix_of};
use crate::expansion::Expansion;
use sig_scope::{Interface, Processes, flat_equations};
use sig_tree::{Body, Constant, Expr, Name, Right};
use std::alloc::Global;

/// A definition by a call: its left sides, the name of the process, its constants and its arguments.
#[derive(Clone, Copy)]
struct Call<'a> {
    names: &'a [Name],
    process: &'a Name,
    constants: &'a [Constant],
    arguments: &'a [Expr],
}

/// Equations of a copy.
#[cycle(equations)]
pub fn expand(
    expansion: &mut Expansion,
    alloc: Global,
    processes: &Processes,
    copy: &ProcessCopy,
    equations: &[&Body],
) -> Result<(), CallAnswer>
    requires every { AreExpandable (interface_models processes.now.interfaces.items) }
    requires ready { AllByRecursion (IsReady (interface_models processes.now.interfaces.items)) (bodies_in equations.now) }
    ensures advanced { OnOk result (Advances (interface_models processes.now.interfaces.items) (copy_in copy.now) (bodies_in equations.now) (made_of expansion.old) (made_of expansion.new)) }
    ensures refused { IsRefused result (NeedsMore (interface_models processes.now.interfaces.items) (copy_in copy.now) (bodies_in equations.now) (made_of expansion.old).progress) }
{
    for equation in equations {
        expand_equation(expansion, alloc, processes, copy, *equation)?;
    }
    Ok(())
}

/// An equation of a copy.
#[cycle(equations)]
fn expand_equation(
    expansion: &mut Expansion,
    alloc: Global,
    processes: &Processes,
    copy: &ProcessCopy,
    equation: &Body,
) -> Result<(), CallAnswer>
    requires every { AreExpandable (interface_models processes.now.interfaces.items) }
    requires ready { IsReady (interface_models processes.now.interfaces.items) (equations_of equation.now) }
    ensures advanced { OnOk result (Advances (interface_models processes.now.interfaces.items) (copy_in copy.now) (equations_of equation.now ∷ []) (made_of expansion.old) (made_of expansion.new)) }
    ensures refused { IsRefused result (NeedsMore (interface_models processes.now.interfaces.items) (copy_in copy.now) (equations_of equation.now ∷ []) (made_of expansion.old).progress) }
{
    match equation {
        Body::All(_) => unreachable!(),
        Body::Def(names, right) => {
            expand_definition(expansion, alloc, processes, copy, names, right)
        }
        Body::Same(operands) => Ok(expansion.equate(alloc, copy, operands)?),
    }
}

/// A definition of a copy.
#[cycle(equations)]
fn expand_definition(
    expansion: &mut Expansion,
    alloc: Global,
    processes: &Processes,
    copy: &ProcessCopy,
    names: &[Name],
    right: &Right,
) -> Result<(), CallAnswer>
    requires every { AreExpandable (interface_models processes.now.interfaces.items) }
    requires ready { IsReady (interface_models processes.now.interfaces.items) (Defines names.now (right_side_of right.now)) }
    ensures advanced { OnOk result (Advances (interface_models processes.now.interfaces.items) (copy_in copy.now) (Defines names.now (right_side_of right.now) ∷ []) (made_of expansion.old) (made_of expansion.new)) }
    ensures refused { IsRefused result (NeedsMore (interface_models processes.now.interfaces.items) (copy_in copy.now) (Defines names.now (right_side_of right.now) ∷ []) (made_of expansion.old).progress) }
{
    match right {
        Right::Value(e) => Ok(expansion.define(alloc, copy, &names[0], e)?),
        Right::Call(process, constants, arguments) => {
            let call = Call {
                names,
                process,
                constants,
                arguments,
            };
            expand_call(expansion, alloc, processes, copy, call)
        }
    }
}

/// A definition of a copy by a call.
#[cycle(equations)]
fn expand_call(
    expansion: &mut Expansion,
    alloc: Global,
    processes: &Processes,
    copy: &ProcessCopy,
    call: Call,
) -> Result<(), CallAnswer>
    requires every { AreExpandable (interface_models processes.now.interfaces.items) }
    requires ready { IsReady (interface_models processes.now.interfaces.items) (call_of call) }
    ensures advanced { OnOk result (Advances (interface_models processes.now.interfaces.items) (copy_in copy.now) (call_of call.entry ∷ []) (made_of expansion.old) (made_of expansion.new)) }
    ensures refused { IsRefused result (NeedsMore (interface_models processes.now.interfaces.items) (copy_in copy.now) (call_of call.entry ∷ []) (made_of expansion.old).progress) }
{
    let Some(called) = processes.get(call.process.text.as_bytes()) else {
        unreachable!()
    };
    let first = expansion.len();
    let inner = enter(expansion, alloc, copy, call, called)?;
    expansion.define_inputs(alloc, copy, first, call.arguments)?;
    let equations = flat_equations(alloc, &called.process.body)?;
    expand(expansion, alloc, processes, &inner, &equations)?;
    let outputs = first + called.inputs.len() as u32;
    expansion.define_outputs(alloc, copy, call.names, outputs)?;
    Ok(())
}

/// The copy that a call makes, whose signals are added.
fn enter<'a>(
    expansion: &mut Expansion,
    alloc: Global,
    copy: &ProcessCopy,
    call: Call,
    called: &Interface<'a>,
) -> Result<ProcessCopy<'a>, CallAnswer>
    requires some { 0 < length (outputs_of (model_of called.now.process.now)) }
    requires labels { AllByRecursion IsLow (pragmas_of_model (model_of called.now.process.now)) }
    ensures copied { IfOk result (λ inner. copy_in inner ≡ called_copy (copy_in copy.now) (made_of expansion.old).progress call.entry.process.now call.entry.constants.now (model_of called.now.process.now)) }
    ensures added { OnOk result ((made_of expansion.new) ≡ with_progress (made_of expansion.old) (with_copy (copy_in copy.now) (made_of expansion.old).progress call.entry.names.now call.entry.process.now (model_of called.now.process.now))) }
    ensures few { OnOk result (length (made_of expansion.new).progress.signals ≤ 512) }
    ensures refused { IsRefused result (512 < length (with_copy (copy_in copy.now) (made_of expansion.old).progress call.entry.names.now call.entry.process.now (model_of called.now.process.now)).signals) }
{
    let first = expansion.len();
    let prefix = prefix_of(alloc, call.process, expansion.next_call())?;
    let cluster = expansion.cluster_of_call(copy, call.names);
    let constants = copy.values(alloc, call.constants)?;
    expansion.add_signals(alloc, prefix.as_bytes(), cluster, called)?;
    expansion.count_call();
    Ok(ProcessCopy::new(alloc, prefix, first, &constants, called)?)
}
