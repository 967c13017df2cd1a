//! Reading the event file of a play.

ghost use Rattle.std.specs.Prelude.{◌≡◌, ◌≢◌, ◌≤◌};
ghost use Rattle.sig_play_command.specs.Prelude.{Some, IfErr, IfOk, IfSome, length, AreEvents, Good, Reads, HasCount, IsOfData, IsOwn, outcome_of};
ghost use Rattle.sig_play_command.specs.inner.EventFiles.{AtEvents, FindsEvents, IsAboutEvents, RefusesEvents, bad_events};

use sig_flow::{EventAnswer, FileEvent, read_events};
use sig_outcome::{Refusal, read_data};
use sig_text::Files;
use std::alloc::{AllocError, Global};

/// The events that the file of this name has.
pub(crate) fn load_events<'a, F: Files>(
    alloc: Global,
    files: &mut F,
    name: &'a str,
) -> Result<Vec<FileEvent>, Refusal<'a>>
    ensures events { IfSome (F.contents files.old) (λ held. IfOk result (λ events.
        FindsEvents (held name.now) name.now (Good events.items))) }
    ensures refused { IfSome (F.contents files.old) (λ held. IfErr result (λ refusal.
        IsOwn refusal (F.faults files.old) (F.faults files.new) →
        AtEvents held name.now (λ _ _. ⊥) (outcome_of refusal (Some name.now)))) }
    ensures about { IfErr result (IsAboutEvents name.now) }
    ensures counted { IfErr result (HasCount (F.contents files.old) (F.at files.new)
        (F.misses files.old) (F.misses files.new) (F.faults files.old) (F.faults files.new)) }
    ensures read { Reads (F.contents files.old) (F.contents files.new) (F.at files.new)
        (F.misses files.old) (F.misses files.new) (F.faults files.old) (F.faults files.new) name.now }
{
    let bytes = read_data(alloc, files, name)?;
    events_of(alloc, &bytes, name)
}

/// The events that the bytes of the file of this name are.
fn events_of<'a>(alloc: Global, bytes: &[u8], name: &str) -> Result<Vec<FileEvent>, Refusal<'a>>
    ensures events { IfOk result (λ events. AreEvents bytes.now events.items) }
    ensures refused { IfErr result (IsOfData (RefusesEvents name.now bytes.now)) }
{
    match read_events(alloc, bytes) {
        Ok(events) => Ok(events),
        Err(answer) => Err(refused_events(alloc, name, answer)),
    }
}

/// The refusal of an event file by an answer, or want of memory for its line.
fn refused_events<'a>(alloc: Global, name: &str, answer: EventAnswer) -> Refusal<'a>
    ensures { IsOfData (λ line. (answer ≢ EventAnswer.OutOfMemory) × (line ≡ bad_events name.now answer)) result }
{
    match answer {
        EventAnswer::OutOfMemory => Refusal::OutOfMemory,
        _ => match format!(in alloc; "error: {name}:{answer}") {
            Ok(line) => Refusal::Data(line),
            Err(AllocError) => Refusal::OutOfMemory,
        },
    }
}
