//! Event files.

ghost use Rattle.std.specs.Prelude.{◌≡◌, ◌≤◌, ◌<◌, ◌+◌, ◌^◌, ◌⊎◌, ◌∷◌, ◌++◌, List, length, OnOk, IfOk, IfErr, IsErrAnd, MatchResult, None, Some, option_to_list};
ghost use Rattle.sig_flow.specs.Events.{AreEvents, IsFirstBadEvent, event_fault, event_named, event_of};
ghost use Rattle.sig_flow.specs.Words.{words_of};
ghost use Rattle.sig_flow.specs.NextWords.{word_of, words_behind};
ghost use Rattle.sig_flow.specs.declared.answer.EventAnswer.{EventAnswer};
ghost use Rattle.sig_flow.specs.declared.event.FileEvent.{FileEvent};

use crate::answer::EventAnswer;
use crate::digits::short_number;
use crate::line::next_line;
use crate::word::{Next, next_word};
use sig_base::limits::EVENTS;
use std::alloc::{AllocFailed, Global};

/// An event of an event file, with the number of its actor.
#[derive(Clone, Copy, Debug, PartialEq, Eq)]
pub enum FileEvent {
    Act(u32),
    Look(u32),
}

/// The events of an event file, in their order, or its first offending line. Only memory can be
/// wanting besides.
pub fn read_events(alloc: Global, bytes: &[u8]) -> Result<Vec<FileEvent>, EventAnswer>
    ensures events { IfOk result (λ events. AreEvents bytes.now events.items) }
    ensures fault { IfErr result (λ answer. (answer ≡ EventAnswer.OutOfMemory) ⊎ IsFirstBadEvent bytes.now answer) }

    // Where the bytes have events, they are given, and where a line offends, the first is named,
    // unless memory runs out.
    ensures given { (events : List FileEvent) → AreEvents bytes.now events →
        MatchResult result (λ given. given.items ≡ events) (λ answer. answer ≡ EventAnswer.OutOfMemory) }
    ensures refused { (fault : EventAnswer) → IsFirstBadEvent bytes.now fault →
        IsErrAnd result (λ answer. (answer ≡ EventAnswer.OutOfMemory) ⊎ (answer ≡ fault)) }
{
    events_by_line(alloc, bytes)
}

/// The events or the first offending line, line by line.
fn events_by_line(alloc: Global, bytes: &[u8]) -> Result<Vec<FileEvent>, EventAnswer>
    ensures events { IfOk result (λ events. AreEvents bytes.now events.items) }
    ensures fault { IfErr result (λ answer. (answer ≡ EventAnswer.OutOfMemory) ⊎ IsFirstBadEvent bytes.now answer) }
{
    let mut events = Vec::new(alloc);
    let mut rest = bytes;
    let mut number = 1;
    while !rest.is_empty() {
        let (line, after) = next_line(rest);
        let event = event_in(line, number, events.len())?;
        add(&mut events, event)?;
        rest = after;
        number += 1;
    }
    Ok(events)
}

/// Adds an event, if there is one.
fn add(events: &mut Vec<FileEvent>, event: Option<FileEvent>) -> Result<(), AllocFailed<FileEvent>>
    ensures { OnOk result (events.new.items ≡ events.old.items ++ option_to_list event) }
{
    match event {
        Some(event) => events.push(event),
        None => Ok(()),
    }
}

/// The event of the line of this number, behind so many events, or with no word none.
fn event_in(line: &[u8], number: usize, before: usize) -> Result<Option<FileEvent>, EventAnswer>
    requires { length line.now + 1 < 2 ^ 64 }
    ensures good { OnOk result (event_fault number before (words_of line.now) ≡ None) }
    ensures event { IfOk result (λ event. event ≡ event_of (words_of line.now)) }
    ensures fault { IfErr result (λ answer. event_fault number before (words_of line.now) ≡ Some answer) }
{
    let Some(name) = next_word(line, 1) else {
        return Ok(None);
    };
    let Some(event) = event_of(name) else {
        return Err(EventAnswer::BadEvent(number));
    };
    if before < EVENTS {
        Ok(Some(event))
    } else {
        Err(EventAnswer::TooMany(EVENTS))
    }
}

/// The event that the words of a line are, of which this is the first.
fn event_of(name: Next) -> Option<FileEvent>
    requires { name.col + length name.word.now + length name.rest.now < 2 ^ 64 }
    ensures { result ≡ event_of (word_of name.entry ∷ words_behind name.entry) }
{
    let digits = next_word(name.rest, name.col + name.word.len())?;
    match next_word(digits.rest, digits.col + digits.word.len()) {
        None => event_named(name.word, short_number(digits.word)?),
        Some(_) => None,
    }
}

/// The event of this name, with this number.
fn event_named(name: &[u8], number: u32) -> Option<FileEvent>
    ensures { result ≡ event_named name.now number }
{
    match name {
        b"act" => Some(FileEvent::Act(number)),
        b"look" => Some(FileEvent::Look(number)),
        _ => None,
    }
}
