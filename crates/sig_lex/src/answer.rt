//! Why a text has no tokens.

ghost use Rattle.std.specs.Prelude.{◌≡◌};
ghost use Rattle.sig_lex.specs.declared.answer.LexAnswer.TheVariants.{OutOfMemory};

use sig_base::Span;
use std::alloc::AllocFailed;
use std::error::Error;
use std::fmt;

/// The first fault of a text, with its place, or want of memory. It displays as the line, without
/// its newline, that the program writes on standard error.
#[derive(Clone, Copy, Debug, PartialEq, Eq)]
pub enum LexAnswer {
    /// A byte that begins no token, or the opening `"` of a label that is not closed on its line or
    /// holds a byte that is not printable.
    BadByte(Span),
    /// The opening `%` of a comment that is not closed.
    OpenComment(Span),
    /// The first digit of a number above 9223372036854775807.
    LongNumber(Span),
    OutOfMemory,
}

impl fmt::Display for LexAnswer {
    ghost use Rattle.std.specs.Prelude.{Some};
    ghost use Rattle.sig_lex.specs.Shown.{fault_line};

    ghost output = { λ answer. Some (fault_line answer) };

    fn fmt<W: fmt::Write>(&self, f: &mut fmt::Formatter<W>) -> fmt::Result {
        match *self {
            LexAnswer::BadByte(at) => write!(f, "error {at}: unexpected byte"),
            LexAnswer::OpenComment(at) => write!(f, "error {at}: comment not closed"),
            LexAnswer::LongNumber(at) => write!(f, "error {at}: number too large"),
            LexAnswer::OutOfMemory => f.write_str("error: out of memory"),
        }
    }
}

impl Error for LexAnswer {}

impl<T: Drop> From<AllocFailed<T>> for LexAnswer {
    ghost from_gives = { λ _ answer. answer ≡ OutOfMemory };

    fn from(_failed: AllocFailed<T>) -> LexAnswer {
        LexAnswer::OutOfMemory
    }
}
