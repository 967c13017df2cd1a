//! Places in a program's text.

ghost use Rattle.std.specs.Prelude.{Some};

use std::fmt;

/// A place in a text: its line and its column, both counted from 1. Columns count bytes. It is
/// shown as its line, a colon and its column.
#[derive(Clone, Copy, Debug, PartialEq, Eq, PartialOrd, Ord, Hash)]
pub struct Span {
    pub line: u32,
    pub col: u32,
}

impl fmt::Display for Span {
    ghost use Rattle.sig_base.specs.Lines.{place_text};

    ghost output = { λ at. Some (place_text at) };

    fn fmt<W: fmt::Write>(&self, f: &mut fmt::Formatter<W>) -> fmt::Result {
        let line = self.line;
        let col = self.col;
        write!(f, "{line}:{col}")
    }
}
