//! The command `play`: from the names of three files to a status.

ghost use Rattle.std.specs.Prelude.{◌≡◌, ◌⊎◌, ◌≤◌};
ghost use Rattle.sig_play_command.specs.Prelude.{length, ITEMS, Shows, AreFlowsFor, opening, Performs, SaysLine, IsAccepted, HoldFew, LacksMemory};
ghost use Rattle.sig_play_command.specs.Plays.{WritesPlay, playing};
ghost use Rattle.sig_play_command.specs.inner.Standing.{IsPlay};

use crate::load::{Script, load_script};
use crate::play::Play;
use crate::writing::play_out;
use sig_base::limits::INSTANTS_MAX;
use sig_flow::FileEvent;
use sig_interleaving::CoreAnswer;
use sig_kernel::Kernel;
use sig_loaded::{end_status, say_end};
use sig_outcome::{refuse, say_fault, say_no_memory};
use sig_text::{Files, Sink};
use sig_words::Settings;
use std::alloc::Global;

/// Lets the events that a file holds happen at the actors of a program over its flows, one after another,
/// writes the state that they leave, and finishes the run from there.
pub fn play_command<F: Files, S: Sink, E: Sink>(
    alloc: Global,
    program: &str,
    flows: &str,
    events: &str,
    settings: Settings,
    files: &mut F,
    out: &mut S,
    err: &mut E,
) -> u8
    requires capacity { 1 ≤ settings.capacity }
    requires instants { settings.instants ≤ INSTANTS_MAX }
    ensures { Performs (playing program.now flows.now events.now settings)
        (F.contents files.old) (F.at files.old) (F.at files.new)
        (F.misses files.old) (F.misses files.new) (F.faults files.old) (F.faults files.new)
        S.took out.old out.new (S.faults out.old) (S.faults out.new) (S.clean out.new)
        (SaysLine E.took (E.faults err.old) (E.faults err.new) err.old err.new) result }
{
    match load_script(alloc, files, program, flows, events, settings) {
        Ok(script) => play_script(alloc, &script, settings, out, err),
        Err(refusal) => refuse(&refusal, err),
    }
}

/// Plays what was loaded, and says on `err` how the run ended.
fn play_script<S: Sink, E: Sink>(
    alloc: Global,
    script: &Script,
    settings: Settings,
    out: &mut S,
    err: &mut E,
) -> u8
    requires fit { AreFlowsFor script.now.loaded.plan.kernel script.now.loaded.inputs }
    requires few { HoldFew script.now.loaded.plan.kernel settings.capacity }
    requires capacity { 1 ≤ settings.capacity }
    requires instants { settings.instants ≤ INSTANTS_MAX }
    ensures { WritesPlay script.now.loaded.plan.kernel script.now.loaded.inputs
        settings.capacity settings.instants script.now.events.items
        S.took out.old out.new (S.faults out.old) (S.faults out.new) (S.clean out.new)
        (SaysLine E.took (E.faults err.old) (E.faults err.new) err.old err.new) result
        ⊎ LacksMemory out.old out.new (SaysLine E.took (E.faults err.old) (E.faults err.new) err.old err.new) result }
{
    let (plan, inputs) = (&script.loaded.plan, &script.loaded.inputs);
    match Play::new(alloc, plan, inputs, settings) {
        Ok(mut play) => play_through(&mut play, &plan.kernel, &script.events, out, err),
        Err(CoreAnswer::OutOfMemory) => {
            say_no_memory(err);
            7
        }
    }
}

/// Plays events at the opening of a play, and says on `err` how the run ended.
fn play_through<S: Sink, E: Sink>(
    play: &mut Play<'_>,
    kernel: &Kernel,
    events: &[FileEvent],
    out: &mut S,
    err: &mut E,
) -> u8
    requires play { IsPlay play.old }
    requires opening { Shows (opening play.old.core.plan.now) play.old.core }
    requires accepted { IsAccepted play.old.core.plan.now }
    requires links { length play.old.core.plan.now.links ≤ ITEMS }
    requires kernel { kernel.now ≡ play.old.core.plan.now.kernel }
    ensures { WritesPlay play.old.core.plan.now.kernel play.old.core.inputs.now play.old.core.capacity play.old.core.limit events.now
        S.took out.old out.new (S.faults out.old) (S.faults out.new) (S.clean out.new)
        (SaysLine E.took (E.faults err.old) (E.faults err.new) err.old err.new) result }
{
    match play_out(play, events, out) {
        Ok(end) => {
            say_end(err, kernel, end);
            end_status(end.cause)
        }
        Err(fault) => {
            say_fault(err, fault);
            6
        }
    }
}
