//! Why a relation is not made.

ghost use Rattle.std.specs.Prelude.{◌≡◌};
ghost use Rattle.sig_rel.specs.Prelude.{ClockBase, DdAnswer};
ghost use Rattle.sig_rel.specs.Answers.{IsFromStore};
ghost use Rattle.sig_rel.specs.declared.answer.RelAnswer.TheVariants.{OutOfMemory};

use sig_clock::ClockBase;
use sig_dd::DdAnswer;
use std::alloc::{AllocError, AllocFailed};
use thiserror::Error;

/// Why a relation is not made.
#[derive(Clone, Copy, Debug, PartialEq, Eq, Error)]
pub enum RelAnswer {
    /// The store holds the nodes that it was made for, and the relation may need another one.
    #[error("error: {0} diagram nodes")]
    Budget(u32),
    #[error("error: out of memory")]
    OutOfMemory,
}

impl From<DdAnswer> for RelAnswer {
    ghost from_gives = { IsFromStore };

    fn from(answer: DdAnswer) -> RelAnswer {
        match answer {
            DdAnswer::Budget(nodes) => RelAnswer::Budget(nodes),
            DdAnswer::OutOfMemory => RelAnswer::OutOfMemory,
        }
    }
}

impl From<ClockBase> for RelAnswer {
    ghost from_gives = { λ _ e. e ≡ OutOfMemory };

    fn from(_refused: ClockBase) -> RelAnswer {
        RelAnswer::OutOfMemory
    }
}

impl From<AllocError> for RelAnswer {
    ghost from_gives = { λ _ e. e ≡ OutOfMemory };

    fn from(_refused: AllocError) -> RelAnswer {
        RelAnswer::OutOfMemory
    }
}

impl<T: Drop> From<AllocFailed<T>> for RelAnswer {
    ghost from_gives = { λ _ e. e ≡ OutOfMemory };

    fn from(_refused: AllocFailed<T>) -> RelAnswer {
        RelAnswer::OutOfMemory
    }
}
