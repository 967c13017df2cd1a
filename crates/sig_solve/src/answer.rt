//! Why a kernel has no clocks, or they are not told.

ghost use Rattle.std.specs.Prelude.{◌≡◌};
ghost use Rattle.sig_solve.specs.Prelude.{ClockBase, DdAnswer, RelAnswer};
ghost use Rattle.sig_solve.specs.Refusals.{IsFromRelation, IsFromStore};
ghost use Rattle.sig_solve.specs.declared.answer.ClockAnswer.TheVariants.{OutOfMemory};

use sig_base::SigId;
use sig_clock::ClockBase;
use sig_dd::DdAnswer;
use sig_rel::RelAnswer;
use std::alloc::{AllocError, AllocFailed};
use thiserror::Error;

/// Why a kernel has no clocks, or they are not told.
#[derive(Clone, Copy, Debug, PartialEq, Eq, Error)]
pub enum ClockAnswer {
    /// No reaction is possible but the silent one.
    #[error("no reaction is possible")]
    Dead,
    /// No signal is present in each reaction: the first signal, and the first one beside it.
    #[error("no root")]
    MissingRoot(SigId, SigId),
    /// The clock of the signal is not determined.
    #[error("a clock is not determined")]
    Unsolved(SigId),
    /// The truth of the condition is forced.
    #[error("a condition is forced")]
    Pinned(SigId),
    /// The store holds the nodes that it was made for, and another one may be needed.
    #[error("{0} diagram nodes")]
    Budget(u32),
    #[error("out of memory")]
    OutOfMemory,
}

impl From<DdAnswer> for ClockAnswer {
    ghost from_gives = { IsFromStore };

    fn from(answer: DdAnswer) -> ClockAnswer {
        match answer {
            DdAnswer::Budget(nodes) => ClockAnswer::Budget(nodes),
            DdAnswer::OutOfMemory => ClockAnswer::OutOfMemory,
        }
    }
}

impl From<RelAnswer> for ClockAnswer {
    ghost from_gives = { IsFromRelation };

    fn from(answer: RelAnswer) -> ClockAnswer {
        match answer {
            RelAnswer::Budget(nodes) => ClockAnswer::Budget(nodes),
            RelAnswer::OutOfMemory => ClockAnswer::OutOfMemory,
        }
    }
}

impl From<ClockBase> for ClockAnswer {
    ghost from_gives = { λ _ e. e ≡ OutOfMemory };

    fn from(_refused: ClockBase) -> ClockAnswer {
        ClockAnswer::OutOfMemory
    }
}

impl From<AllocError> for ClockAnswer {
    ghost from_gives = { λ _ e. e ≡ OutOfMemory };

    fn from(_refused: AllocError) -> ClockAnswer {
        ClockAnswer::OutOfMemory
    }
}

impl<T: Drop> From<AllocFailed<T>> for ClockAnswer {
    ghost from_gives = { λ _ e. e ≡ OutOfMemory };

    fn from(_refused: AllocFailed<T>) -> ClockAnswer {
        ClockAnswer::OutOfMemory
    }
}
