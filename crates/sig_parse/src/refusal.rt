//! Why a part of the parser does not go on.

ghost use Rattle.std.specs.Prelude.{◌≡◌};
ghost use Rattle.sig_parse.specs.declared.refusal.Refusal.TheVariants.{OutOfMemory};

use std::alloc::{AllocError, AllocFailed};

/// Why the parser does not pass the next token, or want of memory.
#[derive(Clone, Copy)]
pub enum Refusal {
    /// No sentence begins with the tokens up to it.
    Syntax,
    /// It stands inside too many constructs.
    Nesting,
    /// It is one operator too many.
    Operators,
    OutOfMemory,
}

impl From<AllocError> for Refusal {
    ghost from_gives = { λ _ refusal. refusal ≡ OutOfMemory };

    fn from(_wanting: AllocError) -> Refusal {
        Refusal::OutOfMemory
    }
}

impl<T: Drop> From<AllocFailed<T>> for Refusal {
    ghost from_gives = { λ _ refusal. refusal ≡ OutOfMemory };

    fn from(_wanting: AllocFailed<T>) -> Refusal {
        Refusal::OutOfMemory
    }
}
