//! Why a trace file has no reading.

ghost use Rattle.std.specs.Prelude.{◌≡◌, Some};
ghost use Rattle.sig_judge.specs.Shown.{trace_text};
ghost use Rattle.sig_judge.specs.declared.trace_answer.TraceAnswer.TheVariants.{OutOfMemory};

use std::alloc::{AllocError, AllocFailed};
use std::fmt;
use thiserror::Error;

/// The first offending place of a trace file, or want of memory. Lines and columns are counted from
/// 1, columns in bytes. It is shown as what stands behind `error: `, the file's name and a colon.
#[derive(Clone, Copy, Debug, PartialEq, Eq, Error)]
pub enum TraceAnswer {
    /// The line holds a byte that is no tab and no printable ASCII.
    BadLine(usize),
    /// The line is the first with words, and does not name each signal exactly once. Without a line
    /// with words it is line 1.
    BadHeader(usize),
    /// The line has another number of words than the header.
    BadWidth(usize),
    /// The word at the line and the column is no value of the signal.
    BadValue(usize, usize),
    /// The integer at the line and the column is outside 64 bits.
    OutOfRange(usize, usize),
    /// There are more words of instants than this limit.
    TooMany(usize),
    OutOfMemory,
}

impl fmt::Display for TraceAnswer {
    ghost output = { λ answer. Some (trace_text answer) };

    fn fmt<W: fmt::Write>(&self, f: &mut fmt::Formatter<W>) -> fmt::Result {
        match *self {
            TraceAnswer::BadLine(line) => write!(f, "{line}: bad line"),
            TraceAnswer::BadHeader(line) => write!(f, "{line}: bad header"),
            TraceAnswer::BadWidth(line) => write!(f, "{line}: bad width"),
            TraceAnswer::BadValue(line, col) => write!(f, "{line}:{col}: bad value"),
            TraceAnswer::OutOfRange(line, col) => write!(f, "{line}:{col}: out of range"),
            TraceAnswer::TooMany(limit) => write!(f, " more than {limit} cells"),
            TraceAnswer::OutOfMemory => write!(f, " out of memory"),
        }
    }
}

impl From<AllocError> for TraceAnswer {
    ghost from_gives = { λ _ answer. answer ≡ OutOfMemory };

    fn from(_failed: AllocError) -> TraceAnswer {
        TraceAnswer::OutOfMemory
    }
}

impl<T: Drop> From<AllocFailed<T>> for TraceAnswer {
    ghost from_gives = { λ _ answer. answer ≡ OutOfMemory };

    fn from(_failed: AllocFailed<T>) -> TraceAnswer {
        TraceAnswer::OutOfMemory
    }
}
