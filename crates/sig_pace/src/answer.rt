//! Why a kernel gets no paces.

ghost use Rattle.std.specs.Prelude.{◌≡◌};
ghost use Rattle.sig_pace.specs.Prelude.{RelAnswer};
ghost use Rattle.sig_pace.specs.Answers.{IsFromSystem};
ghost use Rattle.sig_pace.specs.declared.answer.PaceAnswer.TheVariants.{OutOfMemory};

use sig_base::SigId;
use sig_rel::RelAnswer;
use std::alloc::{AllocError, AllocFailed};
use thiserror::Error;

/// Why a kernel gets no paces.
#[derive(Clone, Copy, Debug, PartialEq, Eq, Error)]
pub enum PaceAnswer {
    /// A declared signal has the name of a pace: the least such signal.
    #[error("a name is taken by a pace")]
    NameTaken(SigId),
    /// The paced kernel would have more than so many signals.
    #[error("more than {0} signals")]
    TooManySignals(u32),
    /// The store holds the nodes that it was made for, and another one may be needed.
    #[error("{0} diagram nodes")]
    Budget(u32),
    #[error("out of memory")]
    OutOfMemory,
}

impl From<RelAnswer> for PaceAnswer {
    ghost from_gives = { IsFromSystem };

    fn from(answer: RelAnswer) -> PaceAnswer {
        match answer {
            RelAnswer::Budget(nodes) => PaceAnswer::Budget(nodes),
            RelAnswer::OutOfMemory => PaceAnswer::OutOfMemory,
        }
    }
}

impl From<AllocError> for PaceAnswer {
    ghost from_gives = { λ _ e. e ≡ OutOfMemory };

    fn from(_refused: AllocError) -> PaceAnswer {
        PaceAnswer::OutOfMemory
    }
}

impl<T: Drop> From<AllocFailed<T>> for PaceAnswer {
    ghost from_gives = { λ _ e. e ≡ OutOfMemory };

    fn from(_refused: AllocFailed<T>) -> PaceAnswer {
        PaceAnswer::OutOfMemory
    }
}
