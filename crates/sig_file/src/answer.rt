//! Why an image is not given or not written.

ghost use Rattle.std.specs.Prelude.{◌≡◌};
ghost use Rattle.sig_file.specs.declared.answer.FileAnswer.TheVariants.{OutOfMemory};

use std::alloc::{AllocError, AllocFailed};
use thiserror::Error;

/// Why an image is not made or not written.
#[derive(Clone, Copy, Debug, PartialEq, Eq, Error)]
pub enum FileAnswer {
    /// The image would have more bytes than this.
    #[error("error: image longer than {0} bytes")]
    TooLong(usize),
    #[error("error: out of memory")]
    OutOfMemory,
}

impl From<AllocError> for FileAnswer {
    ghost from_gives = { λ _ answer. answer ≡ OutOfMemory };

    fn from(_failed: AllocError) -> FileAnswer {
        FileAnswer::OutOfMemory
    }
}

impl<T: Drop> From<AllocFailed<T>> for FileAnswer {
    ghost from_gives = { λ _ answer. answer ≡ OutOfMemory };

    fn from(_failed: AllocFailed<T>) -> FileAnswer {
        FileAnswer::OutOfMemory
    }
}

/// Why bytes are not read as an image.
#[derive(Clone, Copy, Debug, PartialEq, Eq, Error)]
pub enum ImageAnswer {
    /// The first field that is broken or cut off begins at this byte, counted from 0, or a byte
    /// stands here behind the last operation.
    #[error("bad image at byte {0}")]
    BadImage(usize),
    #[error("out of memory")]
    OutOfMemory,
}
