//! Why a flat body has no kernel that is kept.

ghost use Rattle.std.specs.Prelude.{◌≡◌, Some};
ghost use Rattle.sig_flat.specs.Answers.{answer_text};
ghost use Rattle.sig_flat.specs.declared.answer.FlatAnswer.TheVariants.{OutOfMemory};

use std::alloc::{AllocError, AllocFailed};
use std::fmt;
use thiserror::Error;

/// A limit that a kernel passes, or want of memory. It is shown as the line, without its newline,
/// that the program writes on standard error.
#[derive(Clone, Copy, Debug, PartialEq, Eq, Error)]
pub enum FlatAnswer {
    /// More than this many signals are needed.
    TooManySignals(u32),
    OutOfMemory,
}

impl fmt::Display for FlatAnswer {
    ghost output = { λ answer. Some (answer_text answer) };

    fn fmt<W: fmt::Write>(&self, f: &mut fmt::Formatter<W>) -> fmt::Result {
        match *self {
            FlatAnswer::TooManySignals(limit) => write!(f, "error: more than {limit} signals"),
            FlatAnswer::OutOfMemory => write!(f, "error: out of memory"),
        }
    }
}

impl From<AllocError> for FlatAnswer {
    ghost from_gives = { λ _ answer. answer ≡ OutOfMemory };

    fn from(_failed: AllocError) -> FlatAnswer {
        FlatAnswer::OutOfMemory
    }
}

impl<T: Drop> From<AllocFailed<T>> for FlatAnswer {
    ghost from_gives = { λ _ answer. answer ≡ OutOfMemory };

    fn from(_failed: AllocFailed<T>) -> FlatAnswer {
        FlatAnswer::OutOfMemory
    }
}
