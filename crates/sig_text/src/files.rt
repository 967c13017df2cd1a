//! Files by name, read one after another.

ghost use Rattle.std.specs.Prelude.{◌≡◌, ◌↔◌, ◌≤◌, ℕ, List, Option, None, IfSome, length};
ghost use Rattle.std.specs.Io.KnownBytes.{IsAtEnd};
ghost use Rattle.sig_text.specs.Counts.{Rose, DidNotRise};
ghost use Rattle.sig_text.specs.Files.{Contents, OnReady, OnMissing, OnBeginFailed, UnlessReady, IfGot, OnReadFailed, IsOpened, name_where_there, ReadGives};

/// The answer of [`Files::begin`].
#[derive(Clone, Copy, Debug, PartialEq, Eq)]
pub enum Begun {
    /// The name is there, and its bytes are read next.
    Ready,
    /// The name is not there.
    Missing,
    /// The file cannot be read.
    Failed,
}

/// The answer of [`Files::read`].
#[derive(Clone, Copy, Debug, PartialEq, Eq)]
pub enum ReadStep {
    /// The first so many bytes of the piece are the next of the file. None of a piece that is not
    /// empty is the end of the file.
    Got(usize),
    /// The read failed, and took nothing.
    Failed,
}

/// Files by name. One file at a time is read: the one that was begun last.
///
/// A count of faults and one of misses never fall. What the files hold is told or not; clauses on
/// bytes hold where it is told.
pub trait Files {
    // The bytes under each name that is there, where they are told.
    ghost contents: { Self → Option Contents };

    // What is left of the file that was begun, where it is told.
    ghost rest: { Self → Option (List ℕ) };

    // The name that the last `begin` was given, where that name is there and this is told.
    ghost at: { Self → Option (List ℕ) };

    // How many calls failed.
    ghost faults: { Self → ℕ };

    // How many names were not there.
    ghost misses: { Self → ℕ };

    /// Begins to read the file of this name at its first byte. After any answer but `Ready` nothing
    /// is left to be read.
    fn begin(&mut self, name: &str) -> Begun
        ensures ready { IfSome (contents self.old) (λ held. OnReady result (IsOpened (held name.now) (rest self.new))) }
        ensures closed { UnlessReady result (IsAtEnd (rest self.new)) }

        // Missing and Failed have their causes in the counts.
        ensures missing { OnMissing result (Rose (misses self.old) (misses self.new)) }
        ensures failed { OnBeginFailed result (Rose (faults self.old) (faults self.new)) }
        ensures missing_exactly { IfSome (contents self.old) (λ held. DidNotRise (faults self.old) (faults self.new) →
            ((result ≡ Begun.Missing) ↔ (held name.now ≡ None))) }

        ensures named { IfSome (at self.new) (λ told. told ≡ name.now) }
        ensures told { IfSome (contents self.old) (λ held. at self.new ≡ name_where_there held name.now) }

        ensures contents_stay { contents self.new ≡ contents self.old }
        ensures faults_stay { faults self.old ≤ faults self.new }
        ensures misses_stay { misses self.old ≤ misses self.new };

    /// Reads the next bytes of the file that was begun into the front of the piece.
    fn read(&mut self, piece: &mut [u8]) -> ReadStep
        ensures bound { IfGot result (λ n. n ≤ length piece.new) }
        ensures bytes { ReadGives (rest self.old) (rest self.new) result piece.new }
        ensures failed { OnReadFailed result (Rose (faults self.old) (faults self.new)) }

        ensures at_stays { at self.new ≡ at self.old }
        ensures contents_stay { contents self.new ≡ contents self.old }
        ensures faults_stay { faults self.old ≤ faults self.new }
        ensures misses_stay { misses self.old ≤ misses self.new };
}
