//! Why the step of an image is not written.

ghost use Rattle.std.specs.Prelude.{◌≡◌};
ghost use Rattle.sig_c_write.specs.declared.answer.WriteAnswer.TheVariants.{OutOfMemory};

use std::alloc::{AllocError, AllocFailed};
use thiserror::Error;

/// The text would be too long, or there is no memory for it.
#[derive(Clone, Copy, Debug, PartialEq, Eq, Error)]
pub enum WriteAnswer {
    #[error("the text would have more than 67,108,864 bytes")]
    TooLong,
    #[error("out of memory")]
    OutOfMemory,
}

impl From<AllocError> for WriteAnswer {
    ghost from_gives = { λ _ answer. answer ≡ OutOfMemory };

    fn from(_wanting: AllocError) -> WriteAnswer {
        WriteAnswer::OutOfMemory
    }
}

impl<T: Drop> From<AllocFailed<T>> for WriteAnswer {
    ghost from_gives = { λ _ answer. answer ≡ OutOfMemory };

    fn from(_wanting: AllocFailed<T>) -> WriteAnswer {
        WriteAnswer::OutOfMemory
    }
}
