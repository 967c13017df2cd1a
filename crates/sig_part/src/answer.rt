//! Why operations are not split.

ghost use Rattle.std.specs.Prelude.{◌≡◌};
ghost use Rattle.sig_part.specs.declared.answer.PartAnswer.TheVariants.{OutOfMemory};

use sig_dd::DdAnswer;
use std::alloc::{AllocError, AllocFailed};
use thiserror::Error;

/// Why operations are not split. It displays as the line, without its newline, that the program writes.
#[derive(Clone, Copy, Debug, PartialEq, Eq, Error)]
pub enum PartAnswer {
    /// More than this many links are needed, those of reports included.
    #[error("error: more than {0} links")]
    TooManyLinks(u32),
    #[error("error: out of memory")]
    OutOfMemory,
}

// Only calls are made that make no node, so the store has room for what they need.
impl From<DdAnswer> for PartAnswer {
    ghost from_gives = { λ _ e. e ≡ OutOfMemory };

    fn from(_refused: DdAnswer) -> PartAnswer {
        PartAnswer::OutOfMemory
    }
}

impl From<AllocError> for PartAnswer {
    ghost from_gives = { λ _ e. e ≡ OutOfMemory };

    fn from(_refused: AllocError) -> PartAnswer {
        PartAnswer::OutOfMemory
    }
}

impl<T: Drop> From<AllocFailed<T>> for PartAnswer {
    ghost from_gives = { λ _ e. e ≡ OutOfMemory };

    fn from(_refused: AllocFailed<T>) -> PartAnswer {
        PartAnswer::OutOfMemory
    }
}
