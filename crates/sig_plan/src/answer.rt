//! Why the operations of a kernel are not given.

ghost use Rattle.std.specs.Prelude.{◌≡◌};
ghost use Rattle.sig_plan.specs.Answers.{IsFromStore};
ghost use Rattle.sig_plan.specs.declared.answer.PlanAnswer.TheVariants.{OutOfMemory};

use sig_dd::DdAnswer;
use std::alloc::{AllocError, AllocFailed};
use thiserror::Error;

/// Why the operations of a kernel are not given.
#[derive(Clone, Copy, Debug, PartialEq, Eq, Error)]
pub enum PlanAnswer {
    /// The store holds the nodes that it was made for, and a guard may need another one.
    #[error("error: {0} diagram nodes")]
    Budget(u32),
    #[error("error: out of memory")]
    OutOfMemory,
}

impl From<DdAnswer> for PlanAnswer {
    ghost from_gives = { IsFromStore };

    fn from(answer: DdAnswer) -> PlanAnswer {
        match answer {
            DdAnswer::Budget(nodes) => PlanAnswer::Budget(nodes),
            DdAnswer::OutOfMemory => PlanAnswer::OutOfMemory,
        }
    }
}

impl From<AllocError> for PlanAnswer {
    ghost from_gives = { λ _ e. e ≡ OutOfMemory };

    fn from(_refused: AllocError) -> PlanAnswer {
        PlanAnswer::OutOfMemory
    }
}

impl<T: Drop> From<AllocFailed<T>> for PlanAnswer {
    ghost from_gives = { λ _ e. e ≡ OutOfMemory };

    fn from(_refused: AllocFailed<T>) -> PlanAnswer {
        PlanAnswer::OutOfMemory
    }
}
