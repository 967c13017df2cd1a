//! What a step answers.

use sig_base::Place;
use std::alloc::AllocError;
use thiserror::Error;

/// What became of a step: it was done, or it committed a reaction; the link of this number had no item, or
/// no room; the operation has no value, and the actor has ended at this place; the actor has ended at the
/// limit; or it had ended before.
#[derive(Clone, Copy, Debug, PartialEq, Eq)]
pub enum Acted {
    Done,
    Commit,
    Empty(u32),
    Full(u32),
    Failed(Place),
    AtLimit,
    Stopped,
}

/// Why there is no state of an actor.
#[derive(Clone, Copy, Debug, PartialEq, Eq, Error)]
pub enum StepAnswer {
    #[error("error: out of memory")]
    OutOfMemory,
}

impl From<AllocError> for StepAnswer {
    fn from(_: AllocError) -> StepAnswer {
        StepAnswer::OutOfMemory
    }
}
