//! Why there is no run.

ghost use Rattle.std.specs.Prelude.{◌≡◌};
ghost use Rattle.sig_work.specs.declared.answer.DealAnswer.TheVariants.{OutOfMemory};
ghost use Rattle.sig_work.specs.declared.answer.WorkAnswer.TheVariants.{OutOfMemory as NoMemory};

use sig_halt::HaltAnswer;
use sig_link::LinkAnswer;
use sig_step::StepAnswer;
use std::alloc::{AllocError, AllocFailed};
use thiserror::Error;

/// The refusal of [`deal`](crate::deal).
#[derive(Clone, Copy, Debug, PartialEq, Eq, Error)]
pub enum DealAnswer {
    /// Memory was wanting.
    #[error("out of memory")]
    OutOfMemory,
}

/// The refusals of [`run`](crate::run).
#[derive(Clone, Copy, Debug, PartialEq, Eq, Error)]
pub enum WorkAnswer {
    /// The sink failed. All workers were joined, and a prefix of the text was appended.
    #[error("write failed")]
    WriteFault,
    /// Memory was wanting, before any step.
    #[error("out of memory")]
    OutOfMemory,
}

impl From<AllocError> for DealAnswer {
    ghost from_gives = { λ _ answer. answer ≡ OutOfMemory };

    fn from(_refused: AllocError) -> DealAnswer {
        DealAnswer::OutOfMemory
    }
}

impl From<DealAnswer> for WorkAnswer {
    ghost from_gives = { λ _ answer. answer ≡ NoMemory };

    fn from(_refused: DealAnswer) -> WorkAnswer {
        WorkAnswer::OutOfMemory
    }
}

impl From<AllocError> for WorkAnswer {
    ghost from_gives = { λ _ answer. answer ≡ NoMemory };

    fn from(_refused: AllocError) -> WorkAnswer {
        WorkAnswer::OutOfMemory
    }
}

impl<T: Drop> From<AllocFailed<T>> for DealAnswer {
    ghost from_gives = { λ _ answer. answer ≡ OutOfMemory };

    fn from(_refused: AllocFailed<T>) -> DealAnswer {
        DealAnswer::OutOfMemory
    }
}

impl From<LinkAnswer> for DealAnswer {
    ghost from_gives = { λ _ answer. answer ≡ OutOfMemory };

    fn from(_refused: LinkAnswer) -> DealAnswer {
        DealAnswer::OutOfMemory
    }
}

impl From<HaltAnswer> for DealAnswer {
    ghost from_gives = { λ _ answer. answer ≡ OutOfMemory };

    fn from(_refused: HaltAnswer) -> DealAnswer {
        DealAnswer::OutOfMemory
    }
}

impl From<StepAnswer> for DealAnswer {
    ghost from_gives = { λ _ answer. answer ≡ OutOfMemory };

    fn from(_refused: StepAnswer) -> DealAnswer {
        DealAnswer::OutOfMemory
    }
}
