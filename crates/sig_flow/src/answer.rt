//! Why a file has no reading.

ghost use Rattle.std.specs.Prelude.{◌≡◌, Some};
ghost use Rattle.sig_flow.specs.Shown.{flow_text, event_text};
ghost use Rattle.sig_flow.specs.declared.answer.FlowAnswer.TheVariants.{OutOfMemory};
ghost use Rattle.sig_flow.specs.declared.answer.EventAnswer.TheVariants.{OutOfMemory as NoMemory};

use std::alloc::{AllocError, AllocFailed};
use std::fmt;
use thiserror::Error;

/// The first offending place of a flow file, or want of memory. Lines and columns are counted from 1,
/// columns in bytes. It is shown as what stands behind `error: `, the file's name and a colon.
#[derive(Clone, Copy, Debug, PartialEq, Eq, Error)]
pub enum FlowAnswer {
    /// The line holds a byte that is no tab and no printable ASCII, or its first word has not the
    /// form of a name.
    BadLine(usize),
    /// The name on the line is no input's.
    NotAnInput(usize),
    /// The word at the line and the column is no value of the input.
    BadValue(usize, usize),
    /// The integer at the line and the column is outside 64 bits.
    OutOfRange(usize, usize),
    /// There are more values than this limit.
    TooMany(usize),
    OutOfMemory,
}

/// The first offending line of an event file, or want of memory. Lines are counted from 1. It is
/// shown as what stands behind `error: `, the file's name and a colon.
#[derive(Clone, Copy, Debug, PartialEq, Eq, Error)]
pub enum EventAnswer {
    /// The line has words and is no event.
    BadEvent(usize),
    /// There are more events than this limit.
    TooMany(usize),
    OutOfMemory,
}

impl fmt::Display for FlowAnswer {
    ghost output = { λ answer. Some (flow_text answer) };

    fn fmt<W: fmt::Write>(&self, f: &mut fmt::Formatter<W>) -> fmt::Result {
        match *self {
            FlowAnswer::BadLine(line) => write!(f, "{line}: bad line"),
            FlowAnswer::NotAnInput(line) => write!(f, "{line}: not an input"),
            FlowAnswer::BadValue(line, col) => write!(f, "{line}:{col}: bad value"),
            FlowAnswer::OutOfRange(line, col) => write!(f, "{line}:{col}: out of range"),
            FlowAnswer::TooMany(limit) => write!(f, " more than {limit} values"),
            FlowAnswer::OutOfMemory => write!(f, " out of memory"),
        }
    }
}

impl fmt::Display for EventAnswer {
    ghost output = { λ answer. Some (event_text answer) };

    fn fmt<W: fmt::Write>(&self, f: &mut fmt::Formatter<W>) -> fmt::Result {
        match *self {
            EventAnswer::BadEvent(line) => write!(f, "{line}: bad event"),
            EventAnswer::TooMany(limit) => write!(f, " more than {limit} events"),
            EventAnswer::OutOfMemory => write!(f, " out of memory"),
        }
    }
}

impl From<AllocError> for FlowAnswer {
    ghost from_gives = { λ _ answer. answer ≡ OutOfMemory };

    fn from(_failed: AllocError) -> FlowAnswer {
        FlowAnswer::OutOfMemory
    }
}

impl<T: Drop> From<AllocFailed<T>> for FlowAnswer {
    ghost from_gives = { λ _ answer. answer ≡ OutOfMemory };

    fn from(_failed: AllocFailed<T>) -> FlowAnswer {
        FlowAnswer::OutOfMemory
    }
}

impl<T: Drop> From<AllocFailed<T>> for EventAnswer {
    ghost from_gives = { λ _ answer. answer ≡ NoMemory };

    fn from(_failed: AllocFailed<T>) -> EventAnswer {
        EventAnswer::OutOfMemory
    }
}
