//! The command `run`: from the names of two files to a status.

ghost use Rattle.std.specs.Prelude.{◌≡◌, ◌⊎◌};
ghost use Rattle.sig_run_command.specs.Prelude.{IfOk, IsErrOf, IsTrue, OnOk, IsWholeRun, IsLongest, Trace, IsKernelTrace, output_text, AreFlowsFor, Rose, TookPrefix, Performs, SaysLine};
ghost use Rattle.sig_loaded.specs.Runs.{AreWithinBounds, LacksMemory, WritesRun, running};

use crate::run::run_plan;
use sig_alone::RunAnswer;
use sig_kernel::Inputs;
use sig_loaded::{Loaded, end_status, load_run, say_end};
use sig_outcome::{refuse, say_fault, say_no_memory};
use sig_plan::{Ended, Plan};
use sig_text::{Files, Gate, Sink, WriteFault};
use sig_words::Settings;
use std::alloc::Global;
use std::sync::Wait;
use std::thread::Threads;

/// Runs the program that a file holds over the flows that another file holds: with its clusters on as many
/// worker threads as the settings say, or on this thread alone where they say none, and with paces where they
/// ask for them. Each cluster passes the gate at each of its instants.
pub fn run_command<R: Threads + Wait + Sync, F: Files, S: Sink, E: Sink, G: Gate + Sync>(
    rt: &R,
    alloc: Global,
    program: &str,
    flows: &str,
    settings: Settings,
    files: &mut F,
    out: &mut S,
    err: &mut E,
    gate: &G,
) -> u8
    requires { AreWithinBounds settings }
    ensures { Performs (running program.now flows.now settings)
        (F.contents files.old) (F.at files.old) (F.at files.new)
        (F.misses files.old) (F.misses files.new) (F.faults files.old) (F.faults files.new)
        S.took out.old out.new (S.faults out.old) (S.faults out.new) (S.clean out.new)
        (SaysLine E.took (E.faults err.old) (E.faults err.new) err.old err.new) result }
{
    match load_run(alloc, files, program, flows, settings) {
        Ok(loaded) => run_loaded(rt, alloc, &loaded, settings, out, err, gate),
        Err(refusal) => refuse(&refusal, err),
    }
}

/// Runs what was loaded, and says on `err` how it ended.
fn run_loaded<R: Threads + Wait + Sync, S: Sink, E: Sink, G: Gate + Sync>(
    rt: &R,
    alloc: Global,
    loaded: &Loaded,
    settings: Settings,
    out: &mut S,
    err: &mut E,
    gate: &G,
) -> u8
    requires fit { AreFlowsFor loaded.now.plan.kernel loaded.now.inputs }
    requires bounds { AreWithinBounds settings }
    ensures { WritesRun loaded.now.plan.kernel loaded.now.inputs settings.instants
        S.took out.old out.new (S.faults out.old) (S.faults out.new) (S.clean out.new)
        (SaysLine E.took (E.faults err.old) (E.faults err.new) err.old err.new) result
        ⊎ LacksMemory out.old out.new (SaysLine E.took (E.faults err.old) (E.faults err.new) err.old err.new) result }
{
    match run_out(rt, alloc, &loaded.plan, &loaded.inputs, settings, out, gate) {
        Ok(end) => {
            say_end(err, &loaded.plan.kernel, end);
            end_status(end.cause)
        }
        Err(RunAnswer::WriteFault) => {
            say_fault(err, WriteFault);
            6
        }
        Err(RunAnswer::OutOfMemory) => {
            say_no_memory(err);
            7
        }
    }
}

/// Runs a plan over flows to the end, and hands the text on.
fn run_out<R: Threads + Wait + Sync, S: Sink, G: Gate + Sync>(
    rt: &R,
    alloc: Global,
    plan: &Plan,
    inputs: &Inputs,
    settings: Settings,
    out: &mut S,
    gate: &G,
) -> Result<Ended, RunAnswer>
    requires fit { AreFlowsFor plan.now.kernel inputs.now }
    requires bounds { AreWithinBounds settings }
    ensures whole { IfOk result (λ end. IsWholeRun plan.now inputs.now settings.instants S.took out.old out.new end) }
    ensures clean { OnOk result (IsTrue (S.clean out.new)) }
    ensures prefix { IsErrOf result RunAnswer.WriteFault → (trace : Trace)
        → IsLongest (IsKernelTrace plan.now.kernel) inputs.now settings.instants trace
        → TookPrefix S.took out.old (output_text plan.now.kernel trace) out.new }
    ensures failed { IsErrOf result RunAnswer.WriteFault → Rose (S.faults out.old) (S.faults out.new) }
    ensures memory { IsErrOf result RunAnswer.OutOfMemory → out.new ≡ out.old }
{
    let end = run_plan(rt, alloc, plan, inputs, settings, gate, out)?;
    match out.flush() {
        Ok(()) => Ok(end),
        Err(WriteFault) => Err(RunAnswer::WriteFault),
    }
}
