//! What a core answers.

use sig_step::StepAnswer;
use std::alloc::{AllocError, AllocFailed};
use thiserror::Error;

/// How far an actor is.
#[derive(Clone, Copy, Debug, PartialEq, Eq)]
pub struct ActorState {
    pub instant: u32,
    pub step: u32,
    pub ended: bool,
}

/// Why there is no core.
#[derive(Clone, Copy, Debug, PartialEq, Eq, Error)]
pub enum CoreAnswer {
    #[error("error: out of memory")]
    OutOfMemory,
}

impl From<AllocError> for CoreAnswer {
    fn from(_: AllocError) -> CoreAnswer {
        CoreAnswer::OutOfMemory
    }
}

impl From<StepAnswer> for CoreAnswer {
    fn from(_: StepAnswer) -> CoreAnswer {
        CoreAnswer::OutOfMemory
    }
}

impl<T: Drop> From<AllocFailed<T>> for CoreAnswer {
    fn from(_refused: AllocFailed<T>) -> CoreAnswer {
        CoreAnswer::OutOfMemory
    }
}
