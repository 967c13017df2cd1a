//! The check of a program by the eleven rules.

ghost use Rattle.std.specs.Prelude.{◌≡◌, ◌≢◌, ◌↔◌};
ghost use Rattle.sig_type.specs.Prelude.{[], Some, slice_get, MatchOption, IfOk, IfErr, OnOk, IsTrue, Contains, length, map, take, ⊤, all_processes, name_of, texts, program_of, model_of, IsWellFormed, IsFirstOffence, rules_of, rules_on, graph_of, graph_in, declarations_in, bodies_in, interface_models};
ghost use Rattle.sig_type.specs.Answers.{offence_of};
ghost use Rattle.sig_type.specs.inner.Asked.{definitions_in, calls_in};
ghost use Rattle.sig_type.specs.inner.Findings.{Finds, IsFoundOf};

use crate::answer::TypeAnswer;
use crate::bare::bare_constants;
use crate::calls::bad_calls;
use crate::clashes::clashes;
use crate::finding::{Finding, First, answer_of};
use crate::inits::missing_inits;
use crate::left_sides::left_sides_of;
use crate::names::unknown_names;
use crate::pragmas::bad_pragmas;
use crate::recursion::recursive_calls;
use crate::signals::{declared_twice, defined_twice, inputs_defined, undefined};
use sig_recursion::{Calls, called_names};
use sig_scope::{Interface, Processes, Scope, Texts, flat_equations};
use sig_tree::{Body, Process, Program};
use std::alloc::{AllocError, Global};

/// Tells whether a program is well formed. Otherwise the answer names the first rule that it breaks,
/// in the order of the processes in the text, then of the rules, then of the tokens.
pub fn check(alloc: Global, program: &Program) -> Result<(), TypeAnswer>
    ensures formed { OnOk result (IsWellFormed (program_of program.now)) }
    ensures refused { IfErr result (λ answer. MatchOption (offence_of answer) ⊤ (IsFirstOffence (program_of program.now))) }
{
    match first_offence(alloc, program)?.found {
        Some(finding) => Err(answer_of(alloc, finding)),
        None => Ok(()),
    }
}

/// The first offence of a program.
fn first_offence<'a>(alloc: Global, program: &'a Program) -> Result<First<'a>, AllocError>
    ensures { IfOk result (λ first. IsFoundOf (rules_of (all_processes (program_of program.now))) first.found) }
{
    let processes = Processes::new(alloc, program)?;
    let calls = Calls::new(alloc, &processes)?;
    first_of_all(alloc, &processes, &calls)
}

/// All rules on the processes, one after another.
fn first_of_all<'a>(
    alloc: Global,
    processes: &Processes<'a>,
    calls: &Calls,
) -> Result<First<'a>, AllocError>
    requires { graph_in calls.now.callees.items ≡ graph_of (interface_models processes.now.interfaces.items) }
    ensures { IfOk result (λ first. IsFoundOf (rules_of (interface_models processes.now.interfaces.items)) first.found) }
{
    let mut first = First::new();
    let mut earlier = Texts::new(alloc);
    for (place, interface) in processes.as_slice().iter().enumerate() {
        let process: &'a Process = interface.process;
        let again = earlier.add(process.name.text.as_bytes())?;
        first_of_process(alloc, processes, calls, place, again, interface, &mut first)?;
        if first.found.is_some() {
            return Ok(first);
        }
    }
    Ok(first)
}

/// All rules on a process.
fn first_of_process<'a>(
    alloc: Global,
    processes: &Processes,
    calls: &Calls,
    place: usize,
    again: bool,
    interface: &Interface<'a>,
    first: &mut First<'a>,
) -> Result<(), AllocError>
    requires calls { graph_in calls.now.callees.items ≡ graph_of (interface_models processes.now.interfaces.items) }
    requires here { slice_get (interface_models processes.now.interfaces.items) place ≡ Some (model_of interface.now.process.now) }
    requires again { IsTrue again ↔ Contains (texts (map name_of (take place (interface_models processes.now.interfaces.items)))) (name_of (model_of interface.now.process.now)).text }
    ensures { OnOk result (Finds first.old first.new (rules_on (interface_models processes.now.interfaces.items) (take place (interface_models processes.now.interfaces.items)) (model_of interface.now.process.now))) }
{
    let process: &'a Process = interface.process;
    let body = flat_equations(alloc, &process.body)?;
    let scope = interface.scope(alloc)?;
    unknown_names(processes, &scope, interface, &body, first);
    first.ask(again, Finding::DeclaredTwice(&process.name));
    declared_twice(alloc, scope.as_slice(), first)?;
    definitions(alloc, &scope, interface, &body, first)?;
    clashes(processes, &scope, interface, &body, first);
    bare_constants(&scope, &body, first);
    calls_of(alloc, processes, calls, place, interface, &body, first)?;
    bad_pragmas(alloc, &scope, &process.run_on, first)?;
    missing_inits(&scope, &body, first);
    Ok(())
}

/// The rules on left sides.
fn definitions<'a>(
    alloc: Global,
    scope: &Scope,
    interface: &Interface<'a>,
    body: &[&'a Body],
    first: &mut First<'a>,
) -> Result<(), AllocError>
    ensures { OnOk result (Finds first.old first.new (definitions_in scope.now (declarations_in interface.now.outputs.items) (bodies_in body.now) (declarations_in interface.now.locals.items))) }
{
    let left_sides = left_sides_of(alloc, body)?;
    inputs_defined(scope, &left_sides, first);
    let defined = defined_twice(alloc, &left_sides, first)?;
    undefined(&defined, &interface.outputs, first);
    undefined(&defined, &interface.locals, first);
    Ok(())
}

/// Whether a process is the first, and has parameters.
fn is_first_with_params(place: usize, interface: &Interface) -> bool
    ensures { IsTrue result ↔ ((place ≡ 0) × (declarations_in interface.now.params.items ≢ [])) }
{
    place == 0 && !interface.params.is_empty()
}

/// The rules on calls.
fn calls_of<'a>(
    alloc: Global,
    processes: &Processes,
    calls: &Calls,
    place: usize,
    interface: &Interface<'a>,
    body: &[&'a Body],
    first: &mut First<'a>,
) -> Result<(), AllocError>
    requires calls { graph_in calls.now.callees.items ≡ graph_of (interface_models processes.now.interfaces.items) }
    requires here { slice_get (interface_models processes.now.interfaces.items) place ≡ Some (model_of interface.now.process.now) }
    ensures { OnOk result (Finds first.old first.new (calls_in (interface_models processes.now.interfaces.items) (take place (interface_models processes.now.interfaces.items)) (model_of interface.now.process.now) (bodies_in body.now))) }
{
    let process: &'a Process = interface.process;
    let name = &process.name;
    first.ask(
        is_first_with_params(place, interface),
        Finding::BadCall(name),
    );
    bad_calls(processes, body, first);
    let names = called_names(alloc, body)?;
    match processes.place(name.text.as_bytes()) {
        Some(target) => {
            recursive_calls(alloc, processes, calls, name, target, &names, first)?;
            Ok(())
        }
        None => Ok(()),
    }
}
