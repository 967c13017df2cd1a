//! Why there is no verdict.

ghost use Rattle.std.specs.Prelude.{◌≡◌};
ghost use Rattle.sig_judge.specs.declared.answer.JudgeAnswer.TheVariants.{OutOfMemory};

use std::alloc::{AllocError, AllocFailed};
use thiserror::Error;

/// There is no memory for a verdict.
#[derive(Clone, Copy, Debug, PartialEq, Eq, Error)]
pub enum JudgeAnswer {
    #[error("out of memory")]
    OutOfMemory,
}

impl From<AllocError> for JudgeAnswer {
    ghost from_gives = { λ _ answer. answer ≡ OutOfMemory };

    fn from(_failed: AllocError) -> JudgeAnswer {
        JudgeAnswer::OutOfMemory
    }
}

impl<T: Drop> From<AllocFailed<T>> for JudgeAnswer {
    ghost from_gives = { λ _ answer. answer ≡ OutOfMemory };

    fn from(_failed: AllocFailed<T>) -> JudgeAnswer {
        JudgeAnswer::OutOfMemory
    }
}
