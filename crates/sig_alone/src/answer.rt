//! Why a run has no end.

use thiserror::Error;

/// Why a run has no end: the sink did not take what it was given, or memory was wanting before the first
/// instant.
#[derive(Clone, Copy, Debug, PartialEq, Eq, Error)]
pub enum RunAnswer {
    #[error("write failed")]
    WriteFault,
    #[error("out of memory")]
    OutOfMemory,
}
