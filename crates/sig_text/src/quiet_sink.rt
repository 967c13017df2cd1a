//! A sink that forgets.

ghost use Rattle.std.specs.Prelude.{◌≡◌, ⊤, true, length, IsOk};

use super::sink::{Sink, WriteFault, Wrote};

/// Takes every byte, keeps none, tells nothing and never fails. It is always clean.
#[derive(Clone, Copy, Debug)]
pub struct QuietSink;

impl Sink for QuietSink {
    ghost took = { λ _ _ _. ⊤ };

    ghost faults = { λ _. 0 };

    ghost clean = { λ _. true };

    fn write(&mut self, piece: &[u8]) -> Wrote
        ensures { result ≡ Wrote.Took (length piece.now) }
    {
        Wrote::Took(piece.len())
    }

    fn flush(&mut self) -> Result<(), WriteFault>
        ensures { IsOk result }
    {
        Ok(())
    }

    ghost took_nothing = { λ _. tt };

    ghost took_both = { λ _ _ _ _ _ _ _. tt };
}
