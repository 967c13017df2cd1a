//! Reading the files of a play.

ghost use Rattle.std.specs.Prelude.{◌≡◌};
ghost use Rattle.sig_play_command.specs.Prelude.{IfErr, IfOk, IfSome, FindsAccepted, AreFlowsFor, inputs_of, Good, Stops, FindsFlows, HoldFew, name_where_there};
ghost use Rattle.sig_play_command.specs.inner.EventFiles.{FindsEvents};
ghost use Rattle.sig_play_command.specs.Plays.{playing};

use crate::event_file::load_events;
use sig_flow::FileEvent;
use sig_loaded::{Loaded, load_run};
use sig_outcome::Refusal;
use sig_text::Files;
use sig_words::Settings;
use std::alloc::Global;

/// What the files of a play hold: the plan and the flows of a run, and the events.
#[derive(Drop)]
pub(crate) struct Script {
    pub(crate) loaded: Loaded,
    pub(crate) events: Vec<FileEvent>,
}

/// The plan, the flows and the events of a play with these settings: their pacing and their capacity count
/// here. The event file is asked for behind a program and a flow file that are good.
pub(crate) fn load_script<'a, F: Files>(
    alloc: Global,
    files: &mut F,
    program: &'a str,
    flows: &'a str,
    events: &'a str,
    settings: Settings,
) -> Result<Script, Refusal<'a>>
    ensures program { IfSome (F.contents files.old) (λ held. IfOk result (λ script.
        FindsAccepted settings.pace (held program.now) (Good script.loaded.plan.kernel))) }
    ensures few { IfOk result (λ script. HoldFew script.loaded.plan.kernel settings.capacity) }
    ensures flows { IfSome (F.contents files.old) (λ held. IfOk result (λ script.
        FindsFlows (held flows.now) flows.now (inputs_of script.loaded.plan.kernel) (Good script.loaded.inputs))) }
    ensures fit { IfOk result (λ script. AreFlowsFor script.loaded.plan.kernel script.loaded.inputs) }
    ensures events { IfSome (F.contents files.old) (λ held. IfOk result (λ script.
        FindsEvents (held events.now) events.now (Good script.events.items))) }
    ensures last { IfSome (F.contents files.old) (λ held. IfOk result (λ _.
        F.at files.new ≡ name_where_there held events.now)) }

    // A refusal is the one that told contents call for, if they alone decide it.
    ensures stops { IfErr result (Stops (playing program.now flows.now events.now settings)
        (F.contents files.old) (F.at files.old) (F.at files.new)
        (F.misses files.old) (F.misses files.new) (F.faults files.old) (F.faults files.new)) }
{
    let loaded = load_run(alloc, files, program, flows, settings)?;
    let events = load_events(alloc, files, events)?;
    Ok(Script { loaded, events })
}
