//! A sink that counts and sums.

ghost use Rattle.std.specs.Prelude.{◌≡◌, true, length, sum, IsOk};
ghost use Rattle.sig_load.specs.Tally.{RoseBy, Tallied, Tallied-nothing, Tallied-both};

use sig_text::{Sink, WriteFault, Wrote};
use std::marker::Model;

/// Takes every byte, keeps their number and their sum, each modulo 2^64, and never fails. It is
/// always clean.
#[derive(Clone, Copy, Debug, Default)]
pub struct TallySink {
    bytes: u64,
    sum: u64,
}

impl Model for TallySink {
    ghost use Rattle.sig_load.specs.Tally.{Tally};

    ghost Value = { Tally };

    ghost view = { λ sink. record { bytes = sink.bytes; sum = sink.sum } };

    ghost inverse = { λ tally. record { bytes = tally.bytes; sum = tally.sum } };
}

impl TallySink {
    /// A sink that took nothing.
    pub fn new() -> TallySink
        ensures { result ≡ record { bytes = 0; sum = 0 } }
    {
        TallySink { bytes: 0, sum: 0 }
    }

    /// The number of the bytes that it took, modulo 2^64.
    pub fn bytes(&self) -> u64
        ensures { result ≡ self.now.bytes }
    {
        self.bytes
    }

    /// The sum of the bytes that it took, modulo 2^64.
    pub fn sum(&self) -> u64
        ensures { result ≡ self.now.sum }
    {
        self.sum
    }
}

/// A sum with these bytes added, modulo 2^64.
fn added(start: u64, bytes: &[u8]) -> u64
    ensures { RoseBy start (sum bytes.now) result }
{
    let mut total = start;
    for byte in bytes {
        total = total.wrapping_add(u64::from(*byte));
    }
    total
}

impl Sink for TallySink {
    ghost took = { Tallied };

    ghost faults = { λ _. 0 };

    ghost clean = { λ _. true };

    fn write(&mut self, piece: &[u8]) -> Wrote
        ensures all { result ≡ Wrote.Took (length piece.now) }
        ensures tallied { Tallied self.old piece.now self.new }
    {
        self.bytes = self.bytes.wrapping_add(piece.len() as u64);
        self.sum = added(self.sum, piece);
        Wrote::Took(piece.len())
    }

    fn flush(&mut self) -> Result<(), WriteFault>
        ensures ok { IsOk result }
        ensures same { self.new ≡ self.old }
    {
        Ok(())
    }

    ghost took_nothing = { Tallied-nothing };

    ghost took_both = { Tallied-both };
}
