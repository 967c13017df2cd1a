//! Why a text is not made.

use std::alloc::AllocError;
use thiserror::Error;

/// There is no memory for a text.
#[derive(Clone, Copy, Debug, PartialEq, Eq, Error)]
pub enum LoadAnswer {
    #[error("out of memory")]
    OutOfMemory,
}

impl From<AllocError> for LoadAnswer {
    fn from(_failed: AllocError) -> LoadAnswer {
        LoadAnswer::OutOfMemory
    }
}
