//! Why operations have no order.

ghost use Rattle.std.specs.Prelude.{◌≡◌};
ghost use Rattle.sig_graph.specs.declared.answer.GraphAnswer.TheVariants.{OutOfMemory};

use sig_base::SigId;
use sig_dd::DdAnswer;
use std::alloc::{AllocError, AllocFailed};
use thiserror::Error;

/// Why operations have no order.
#[derive(Clone, Copy, Debug, PartialEq, Eq, Error)]
pub enum GraphAnswer {
    /// Some operation precedes itself; the signal is the least that such an operation writes.
    #[error("cycle")]
    Cycle(SigId),
    #[error("out of memory")]
    OutOfMemory,
}

// Only calls are made that make no node, so the store has room for what they need.
impl From<DdAnswer> for GraphAnswer {
    ghost from_gives = { λ _ e. e ≡ OutOfMemory };

    fn from(_refused: DdAnswer) -> GraphAnswer {
        GraphAnswer::OutOfMemory
    }
}

impl From<AllocError> for GraphAnswer {
    ghost from_gives = { λ _ e. e ≡ OutOfMemory };

    fn from(_refused: AllocError) -> GraphAnswer {
        GraphAnswer::OutOfMemory
    }
}

impl<T: Drop> From<AllocFailed<T>> for GraphAnswer {
    ghost from_gives = { λ _ e. e ≡ OutOfMemory };

    fn from(_refused: AllocFailed<T>) -> GraphAnswer {
        GraphAnswer::OutOfMemory
    }
}
