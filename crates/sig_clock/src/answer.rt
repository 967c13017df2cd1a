//! Why a question about clocks is not answered.

ghost use Rattle.std.specs.Prelude.{◌≡◌};
ghost use Rattle.sig_clock.specs.declared.answer.ClockBase.TheVariants.{OutOfMemory};

use std::alloc::{AllocError, AllocFailed};
use thiserror::Error;

/// There is no memory for the answer.
#[derive(Clone, Copy, Debug, PartialEq, Eq, Error)]
pub enum ClockBase {
    #[error("out of memory")]
    OutOfMemory,
}

impl From<AllocError> for ClockBase {
    ghost from_gives = { λ _ e. e ≡ OutOfMemory };

    fn from(_refused: AllocError) -> ClockBase {
        ClockBase::OutOfMemory
    }
}

impl<T: Drop> From<AllocFailed<T>> for ClockBase {
    ghost from_gives = { λ _ e. e ≡ OutOfMemory };

    fn from(_refused: AllocFailed<T>) -> ClockBase {
        ClockBase::OutOfMemory
    }
}
