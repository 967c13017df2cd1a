//! Why an image is not verified.

use thiserror::Error;

/// Why an image is not verified.
#[derive(Clone, Copy, Debug, PartialEq, Eq, Error)]
pub enum VerifyAnswer {
    /// This operation, counted from 0, is the first that is not sound.
    #[error("operation {0} is not sound")]
    Unsound(usize),
    /// The diagrams of what is written where need more than this many nodes.
    #[error("{0} diagram nodes")]
    Budget(u32),
    #[error("out of memory")]
    OutOfMemory,
}
