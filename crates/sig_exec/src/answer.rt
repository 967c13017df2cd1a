//! Why the run of an image has no end.

use thiserror::Error;

/// Why the run of an image has no end: the sink did not take what it was given, or memory was wanting before the first
/// instant.
#[derive(Clone, Copy, Debug, PartialEq, Eq, Error)]
pub enum ExecAnswer {
    #[error("write failed")]
    WriteFault,
    #[error("out of memory")]
    OutOfMemory,
}
