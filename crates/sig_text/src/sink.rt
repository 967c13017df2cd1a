//! What takes written bytes.

ghost use Rattle.std.specs.Prelude.{◌≤◌, ◌<◌, ◌++◌, ℕ, List, [], Bool, IsTrue, length, OnOk, OnErr};
ghost use Rattle.sig_text.specs.Counts.{Rose};
ghost use Rattle.sig_text.specs.Sink.{IfTook, OnWriteFailed, TookNone, taken_of};

use thiserror::Error;

/// The answer of [`Sink::write`].
#[derive(Clone, Copy, Debug, PartialEq, Eq)]
pub enum Wrote {
    /// The first so many bytes of the piece were appended.
    Took(usize),
    /// Nothing was appended.
    Failed,
}

/// A sink did not take what it was given.
#[derive(Clone, Copy, Debug, PartialEq, Eq, Error)]
#[error("write failed")]
pub struct WriteFault;

/// What takes bytes, one piece after another.
///
/// A count of faults never falls. The relation `took` says of a sink before, some bytes and the sink
/// after that it took these bytes in between; a sink that tells its bytes fixes them by it.
pub trait Sink {
    // Between the first sink and the second, these bytes were appended.
    ghost took: { Self → List ℕ → Self → Type 0 };

    // How many calls failed.
    ghost faults: { Self → ℕ };

    // All that was appended has been passed on.
    ghost clean: { Self → Bool };

    /// Appends the first bytes of the piece, as many as it answers. To take nothing of a piece that
    /// is not empty is a fault, whatever the answer.
    fn write(&mut self, piece: &[u8]) -> Wrote
        ensures bound { IfTook result (λ n. n ≤ length piece.now) }
        ensures bytes { took self.old (taken_of result piece.now) self.new }
        ensures failed { OnWriteFailed result (Rose (faults self.old) (faults self.new)) }
        ensures none { TookNone result → 0 < length piece.now → Rose (faults self.old) (faults self.new) }
        ensures faults_stay { faults self.old ≤ faults self.new };

    /// Passes on all that was appended. It appends nothing.
    fn flush(&mut self) -> Result<(), WriteFault>
        ensures bytes { took self.old [] self.new }
        ensures clean { OnOk result (IsTrue (clean self.new)) }
        ensures failed { OnErr result (Rose (faults self.old) (faults self.new)) }
        ensures faults_stay { faults self.old ≤ faults self.new };

    // A sink that nothing was done to took nothing.
    ghost took_nothing: { (sink : Self) → took sink [] sink };

    // Two takings, one after the other, are one taking of both lists joined.
    ghost took_both: { (first middle last : Self) (bytes more : List ℕ) →
        took first bytes middle → took middle more last → took first (bytes ++ more) last };
}
