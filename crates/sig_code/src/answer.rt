//! Why a code or its text is not made.

ghost use Rattle.std.specs.Prelude.{◌≡◌};
ghost use Rattle.sig_code.specs.declared.answer.CodeAnswer.TheVariants.{OutOfMemory};

use sig_dd::DdAnswer;
use std::alloc::{AllocError, AllocFailed};
use thiserror::Error;

/// There is no memory for the answer.
#[derive(Clone, Copy, Debug, PartialEq, Eq, Error)]
pub enum CodeAnswer {
    #[error("error: out of memory")]
    OutOfMemory,
}

// Only calls are made that make no node, so the store has room for what they need.
impl From<DdAnswer> for CodeAnswer {
    ghost from_gives = { λ _ e. e ≡ OutOfMemory };

    fn from(_refused: DdAnswer) -> CodeAnswer {
        CodeAnswer::OutOfMemory
    }
}

impl From<AllocError> for CodeAnswer {
    ghost from_gives = { λ _ e. e ≡ OutOfMemory };

    fn from(_refused: AllocError) -> CodeAnswer {
        CodeAnswer::OutOfMemory
    }
}

impl<T: Drop> From<AllocFailed<T>> for CodeAnswer {
    ghost from_gives = { λ _ e. e ≡ OutOfMemory };

    fn from(_refused: AllocFailed<T>) -> CodeAnswer {
        CodeAnswer::OutOfMemory
    }
}
