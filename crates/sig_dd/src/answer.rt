//! Why a call on a store is refused.

ghost use Rattle.std.specs.Prelude.{◌≡◌};
ghost use Rattle.sig_dd.specs.declared.answer.DdAnswer.TheVariants.{OutOfMemory};

use std::alloc::{AllocError, AllocFailed};
use thiserror::Error;

/// Why a call on a store is refused.
#[derive(Clone, Copy, Debug, PartialEq, Eq, Error)]
pub enum DdAnswer {
    /// The store holds the nodes that it was made for, and the call may need another one.
    #[error("{0} diagram nodes")]
    Budget(u32),
    #[error("out of memory")]
    OutOfMemory,
}

impl From<AllocError> for DdAnswer {
    ghost from_gives = { λ _ e. e ≡ OutOfMemory };

    fn from(_refused: AllocError) -> DdAnswer {
        DdAnswer::OutOfMemory
    }
}

impl<T: Drop> From<AllocFailed<T>> for DdAnswer {
    ghost from_gives = { λ _ e. e ≡ OutOfMemory };

    fn from(_refused: AllocFailed<T>) -> DdAnswer {
        DdAnswer::OutOfMemory
    }
}
