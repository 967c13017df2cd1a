//! Why words are no command.

ghost use Rattle.std.specs.Prelude.{◌≡◌, ◌⊎◌, ◌≢◌};
ghost use Rattle.clap.specs.Words.{kind_of};
ghost use Rattle.clap.specs.declared.error.kind.ErrorKind.TheVariants as kind;
ghost use Rattle.sig_words.specs.declared.answer.WordsAnswer.TheVariants.{OutOfMemory, Refused};

use clap::Error as ParseError;
use clap::error::ErrorKind;
use std::alloc::{AllocError, AllocFailed};
use thiserror::Error;

/// The words are no command, or memory is wanting.
#[derive(Clone, Copy, Debug, PartialEq, Eq, Error)]
pub enum WordsAnswer {
    #[error("error: these words are not a command")]
    Refused,
    #[error("error: out of memory")]
    OutOfMemory,
}

impl From<AllocError> for WordsAnswer {
    ghost from_gives = { λ _ answer. answer ≡ OutOfMemory };

    fn from(_failed: AllocError) -> WordsAnswer {
        WordsAnswer::OutOfMemory
    }
}

impl<T: Drop> From<AllocFailed<T>> for WordsAnswer {
    ghost from_gives = { λ _ answer. answer ≡ OutOfMemory };

    fn from(_failed: AllocFailed<T>) -> WordsAnswer {
        WordsAnswer::OutOfMemory
    }
}

impl From<ParseError> for WordsAnswer {
    ghost from_gives = { λ error answer. ((kind_of error ≡ kind.OutOfMemory) × (answer ≡ OutOfMemory))
        ⊎ ((kind_of error ≢ kind.OutOfMemory) × (answer ≡ Refused)) };

    fn from(error: ParseError) -> WordsAnswer {
        match error.kind() {
            ErrorKind::OutOfMemory => WordsAnswer::OutOfMemory,
            _ => WordsAnswer::Refused,
        }
    }
}
