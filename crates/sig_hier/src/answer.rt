//! Why a hierarchy or its text is not made.

ghost use Rattle.std.specs.Prelude.{◌≡◌};
ghost use Rattle.sig_hier.specs.Prelude.{DdAnswer};
ghost use Rattle.sig_hier.specs.declared.answer.TreeAnswer.TheVariants.{OutOfMemory};

use sig_dd::DdAnswer;
use std::alloc::{AllocError, AllocFailed};
use thiserror::Error;

/// There is no memory for the answer.
#[derive(Clone, Copy, Debug, PartialEq, Eq, Error)]
pub enum TreeAnswer {
    #[error("error: out of memory")]
    OutOfMemory,
}

/// A question to a store makes no node, so that only memory can be wanting.
impl From<DdAnswer> for TreeAnswer {
    ghost from_gives = { λ _ e. e ≡ OutOfMemory };

    fn from(_refused: DdAnswer) -> TreeAnswer {
        TreeAnswer::OutOfMemory
    }
}

impl From<AllocError> for TreeAnswer {
    ghost from_gives = { λ _ e. e ≡ OutOfMemory };

    fn from(_refused: AllocError) -> TreeAnswer {
        TreeAnswer::OutOfMemory
    }
}

impl<T: Drop> From<AllocFailed<T>> for TreeAnswer {
    ghost from_gives = { λ _ e. e ≡ OutOfMemory };

    fn from(_refused: AllocFailed<T>) -> TreeAnswer {
        TreeAnswer::OutOfMemory
    }
}
