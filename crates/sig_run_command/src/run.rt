//! The run of a plan, on this thread or with workers.

ghost use Rattle.std.specs.Prelude.{◌≡◌, ◌≤◌};
ghost use Rattle.sig_run_command.specs.Prelude.{Err, IfOk, IsWholeRun, TookSome, RunAnswer, AreFlowsFor, Rose};
ghost use Rattle.sig_loaded.specs.Runs.{AreWithinBounds};

use crate::paying::are_wanted;
use sig_alone::{RunAnswer, run_alone};
use sig_kernel::Inputs;
use sig_plan::{Ended, Plan};
use sig_text::{Gate, Sink};
use sig_words::Settings;
use sig_work::WorkAnswer;
use std::alloc::Global;
use std::sync::Wait;
use std::thread::Threads;

/// Runs a plan over flows to its end, up to the limit of instants: without workers, where there is one cluster and so
/// nothing to spread, or where the settings are those of words that ask for no threads and these would not pay, on this
/// thread alone, in the compiled order; else with the clusters on as many workers, over links of the capacity. The sink gets the text of the longest trace, and the answer
/// is the number of its instants with the named cause; neither depends on the workers and the capacity.
/// Where a write fails, a prefix of that text was appended. All memory is taken before the first instant.
pub fn run_plan<R: Threads + Wait + Sync, S: Sink, G: Gate + Sync>(
    rt: &R,
    alloc: Global,
    plan: &Plan,
    inputs: &Inputs,
    settings: Settings,
    gate: &G,
    sink: &mut S,
) -> Result<Ended, RunAnswer>
    requires fits { AreFlowsFor plan.now.kernel inputs.now }
    requires bounds { AreWithinBounds settings }
    ensures whole { IfOk result (IsWholeRun plan.now inputs.now settings.instants S.took sink.old sink.new) }
    ensures prefix { result ≡ Err RunAnswer.WriteFault → TookSome plan.now inputs.now settings.instants S.took sink.old sink.new }
    ensures failed { result ≡ Err RunAnswer.WriteFault → Rose (S.faults sink.old) (S.faults sink.new) }
    ensures faults_stay { S.faults sink.old ≤ S.faults sink.new }
    ensures memory { result ≡ Err RunAnswer.OutOfMemory → sink.new ≡ sink.old }
{
    let Settings {
        workers,
        capacity,
        instants,
        ..
    } = settings;
    if workers == 0 || has_one_cluster(plan) || !are_wanted(plan, settings) {
        return run_alone(alloc, plan, inputs, instants, gate, sink);
    }
    match sig_work::run(
        rt, alloc, plan, inputs, capacity, instants, workers, gate, sink,
    ) {
        Ok(end) => Ok(end),
        Err(WorkAnswer::WriteFault) => Err(RunAnswer::WriteFault),
        Err(WorkAnswer::OutOfMemory) => Err(RunAnswer::OutOfMemory),
    }
}

/// Whether a plan has one cluster: each other code is the collector's.
fn has_one_cluster(plan: &Plan) -> bool {
    plan.codes.len() <= 2
}
