//! Why a program has no flat body that is kept.

ghost use Rattle.std.specs.Prelude.{◌≡◌};
ghost use Rattle.sig_call.specs.declared.answer.CallAnswer.TheVariants.{OutOfMemory};

use std::alloc::{AllocError, AllocFailed};
use thiserror::Error;

/// A limit that a program's calls pass, or want of memory. It displays as the line, without its
/// newline, that the program writes on standard error.
#[derive(Clone, Copy, Debug, PartialEq, Eq, Error)]
pub enum CallAnswer {
    /// More than this many signals are needed.
    #[error("error: more than {} signals", .0)]
    TooManySignals(u32),
    #[error("error: out of memory")]
    OutOfMemory,
}

impl From<AllocError> for CallAnswer {
    ghost from_gives = { λ _ answer. answer ≡ OutOfMemory };

    fn from(_failed: AllocError) -> CallAnswer {
        CallAnswer::OutOfMemory
    }
}

impl<T: Drop> From<AllocFailed<T>> for CallAnswer {
    ghost from_gives = { λ _ answer. answer ≡ OutOfMemory };

    fn from(_failed: AllocFailed<T>) -> CallAnswer {
        CallAnswer::OutOfMemory
    }
}
