//! The command `load`: from a seed and a number of stages to a status.

ghost use Rattle.std.specs.Prelude.{◌≤◌, ◌⊎◌};
ghost use Rattle.sig_load_command.specs.Prelude.{ℕ, List, Option, AreFlowsFor, Performs, SaysLine, AreWithinBounds, LacksMemory, Contents};
ghost use Rattle.sig_load_command.specs.Loads.{WritesLoad, loading};

use crate::generated::generated;
use crate::summary::put_summary;
use sig_alone::RunAnswer;
use sig_base::limits::INSTANTS_DEFAULT;
use sig_load::TallySink;
use sig_loaded::{Loaded, end_status, say_end};
use sig_outcome::{refuse, say_fault, say_no_memory};
use sig_run_command::run_plan;
use sig_text::{Gate, Sink};
use sig_words::Settings;
use std::alloc::Global;
use std::sync::Wait;
use std::thread::Threads;

/// Runs the generated program of so many stages over its flows from a seed on, with as many workers as the
/// settings say, and writes how many instants it did and how many bytes it would have written, with their
/// sum. It asks for no file.
pub fn load_command<R: Threads + Wait + Sync, S: Sink, E: Sink, G: Gate + Sync>(
    rt: &R,
    alloc: Global,
    seed: u64,
    stages: u32,
    settings: Settings,
    out: &mut S,
    err: &mut E,
    gate: &G,
) -> u8
    requires some { 1 ≤ stages }
    requires few { stages ≤ 12 }
    requires bounds { AreWithinBounds settings }
    ensures { (contents : Option Contents) (at : Option (List ℕ)) (misses faults : ℕ)
        → Performs (loading seed stages settings) contents at at misses misses faults faults
        S.took out.old out.new (S.faults out.old) (S.faults out.new) (S.clean out.new)
        (SaysLine E.took (E.faults err.old) (E.faults err.new) err.old err.new) result }
{
    match generated(alloc, seed, stages, settings.capacity) {
        Ok(loaded) => run_generated(rt, alloc, stages, &loaded, settings, out, err, gate),
        Err(refusal) => refuse(&refusal, err),
    }
}

/// Runs what was generated, writes the summary, and says on `err` how it ended.
fn run_generated<R: Threads + Wait + Sync, S: Sink, E: Sink, G: Gate + Sync>(
    rt: &R,
    alloc: Global,
    stages: u32,
    loaded: &Loaded,
    settings: Settings,
    out: &mut S,
    err: &mut E,
    gate: &G,
) -> u8
    requires fit { AreFlowsFor loaded.now.plan.kernel loaded.now.inputs }
    requires bounds { AreWithinBounds settings }
    ensures { WritesLoad stages loaded.now.plan.kernel loaded.now.inputs
        S.took out.old out.new (S.faults out.old) (S.faults out.new) (S.clean out.new)
        (SaysLine E.took (E.faults err.old) (E.faults err.new) err.old err.new) result
        ⊎ LacksMemory out.old out.new (SaysLine E.took (E.faults err.old) (E.faults err.new) err.old err.new) result }
{
    let mut tally = TallySink::new();
    let settings = Settings {
        instants: INSTANTS_DEFAULT,
        ..settings
    };
    match run_plan(
        rt,
        alloc,
        &loaded.plan,
        &loaded.inputs,
        settings,
        gate,
        &mut tally,
    ) {
        Ok(end) => match put_summary(stages, end.instants, tally.bytes(), tally.sum(), out) {
            Ok(()) => {
                say_end(err, &loaded.plan.kernel, end);
                end_status(end.cause)
            }
            Err(fault) => {
                say_fault(err, fault);
                6
            }
        },
        Err(RunAnswer::WriteFault) => unreachable!(),
        Err(RunAnswer::OutOfMemory) => {
            say_no_memory(err);
            7
        }
    }
}
