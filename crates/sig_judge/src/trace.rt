//! Traces, instant by instant.

ghost use Rattle.std.specs.Prelude.{◌≡◌, ◌↔◌};
ghost use Rattle.sig_judge.specs.Prelude.{IsTrue, map, AreOfKinds, Bounded, Instant, IsOfKind, seen_at, IsTraceOf, kinds_of};
ghost use Rattle.sig_judge.specs.Rows.{seen_of};

use sig_base::{Kind, SigId, Signal};
use std::marker::Model;

/// What a signal is at an instant: absent, or present with an integer, or a truth as 0 or 1.
#[derive(Clone, Copy, Debug, PartialEq, Eq)]
pub enum Seen {
    Absent,
    Value(i64),
}

/// An instant of a trace: what each signal is, by its number. Contracts see the list.
#[derive(Debug, Drop)]
pub struct Row {
    pub seen: Vec<Seen>,
}

impl Model for Row {
    ghost Value = { Instant };

    ghost view = { λ row. map seen_of row.seen.items };
}

impl Row {
    /// What each signal is.
    pub fn as_slice(&self) -> &[Seen]
        ensures { map seen_of result.now ≡ self.now }
    {
        self.seen.as_slice()
    }

    /// Whether there is one entry for each signal, absent or a value of the signal's kind.
    pub fn is_of(&self, signals: &[Signal]) -> bool
        ensures { IsTrue result ↔ AreOfKinds Bounded (kinds_of signals.now) self.now }
    {
        are_of_kinds(self.seen.as_slice(), signals)
    }

    /// What the signal of a number is. Past the last signal nothing is present.
    pub fn at(&self, signal: SigId) -> Seen
        ensures { seen_of result ≡ seen_at self.now signal.0 }
    {
        let index = signal.0 as usize;
        if index < self.seen.len() {
            self.seen[index]
        } else {
            Seen::Absent
        }
    }
}

impl From<Vec<Seen>> for Row {
    ghost from_gives = { λ seen row. row ≡ map seen_of seen.items };

    fn from(seen: Vec<Seen>) -> Row {
        Row { seen }
    }
}

/// Whether there is one of these for each signal, of its kind.
fn are_of_kinds(seen: &[Seen], signals: &[Signal]) -> bool
    ensures { IsTrue result ↔ AreOfKinds Bounded (kinds_of signals.now) (map seen_of seen.now) }
{
    if seen.len() != signals.len() {
        return false;
    }
    for (i, signal) in signals.iter().enumerate() {
        if !is_of_kind(seen[i], signal.kind) {
            return false;
        }
    }
    true
}

/// Whether a signal of this kind may be this.
fn is_of_kind(seen: Seen, kind: Kind) -> bool
    ensures { IsTrue result ↔ IsOfKind Bounded kind (seen_of seen) }
{
    match seen {
        Seen::Absent => true,
        Seen::Value(value) => match kind {
            Kind::Integer => true,
            Kind::Boolean => value == 0 || value == 1,
            Kind::Event => value == 1,
        },
    }
}

/// A trace: its instants, in order.
#[derive(Debug, Drop)]
pub struct Trace {
    pub rows: Vec<Row>,
}

impl Trace {
    /// Whether each instant has one entry for each signal, absent or a value of the signal's kind.
    pub fn is_of(&self, signals: &[Signal]) -> bool
        ensures { IsTrue result ↔ IsTraceOf signals.now self.now.rows.items }
    {
        for row in &self.rows {
            if !row.is_of(signals) {
                return false;
            }
        }
        true
    }
}
