//! Why the reading of an image stops.

ghost use Rattle.std.specs.Prelude.{◌≡◌};
ghost use Rattle.sig_file.specs.declared.stop.Stop.TheVariants.{Memory};

use std::alloc::{AllocError, AllocFailed};

/// Why the reading of an image stops: there is no memory, or a field is broken from which on so many
/// bytes are left.
#[derive(Drop)]
pub enum Stop {
    Memory,
    Broken(usize),
}

impl From<AllocError> for Stop {
    ghost from_gives = { λ _ stop. stop ≡ Memory };

    fn from(_failed: AllocError) -> Stop {
        Stop::Memory
    }
}

impl<T: Drop> From<AllocFailed<T>> for Stop {
    ghost from_gives = { λ _ stop. stop ≡ Memory };

    fn from(_failed: AllocFailed<T>) -> Stop {
        Stop::Memory
    }
}
