//! Why a program is not printed.

ghost use Rattle.std.specs.Prelude.{◌≡◌};
ghost use Rattle.sig_print.specs.declared.answer.PrintAnswer.TheVariants.{OutOfMemory};

use std::alloc::{AllocError, AllocFailed};
use thiserror::Error;

/// Want of memory.
#[derive(Clone, Copy, Debug, PartialEq, Eq, Error)]
pub enum PrintAnswer {
    #[error("error: out of memory")]
    OutOfMemory,
}

impl From<AllocError> for PrintAnswer {
    ghost from_gives = { λ _ answer. answer ≡ OutOfMemory };

    fn from(_wanting: AllocError) -> PrintAnswer {
        PrintAnswer::OutOfMemory
    }
}

impl<T: Drop> From<AllocFailed<T>> for PrintAnswer {
    ghost from_gives = { λ _ answer. answer ≡ OutOfMemory };

    fn from(_wanting: AllocFailed<T>) -> PrintAnswer {
        PrintAnswer::OutOfMemory
    }
}
