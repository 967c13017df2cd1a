//! Parts of the grammar with a separator between them.

ghost use Rattle.std.specs.Prelude.{◌≤◌, length, IfOk, IfErr, OnOk};
ghost use Rattle.sig_parse.specs.State.{State};
ghost use Rattle.sig_parse.specs.inner.Keywords.{terminal_of};
ghost use Rattle.sig_parse.specs.declared.refusal.Refusal.{Refusal};
ghost use Rattle.sig_parse.specs.inner.Repeats.{ReadsSeparated, RefusesSeparated};

use crate::keyword::Keyword;
use crate::parser::Parser;
use crate::refusal::Refusal;
use std::alloc::Global;

/// A part of the grammar that stands in lists.
pub trait Part {
    type Tree: Drop;

    // What is read of it from one place to another, and what is refused of it.
    ghost reads_as: { Self → Self.Tree → State → State → Type 0 };

    ghost refuses_as: { Self → Refusal → State → State → Type 0 };

    /// Passes one.
    fn read(&self, alloc: Global, parser: &mut Parser) -> Result<Self::Tree, Refusal>
        ensures reads { IfOk result (λ tree. reads_as self.now tree parser.old parser.new) }
        ensures onward { OnOk result (length parser.new.leaves ≤ length parser.old.leaves) }
        ensures refuses { IfErr result (λ why. refuses_as self.now why parser.old parser.new) };
}

/// Parts with a separator between them.
pub fn separated<P: Part>(
    alloc: Global,
    parser: &mut Parser,
    part: &P,
    separator: Keyword,
) -> Result<Vec<P::Tree>, Refusal>
    ensures reads { IfOk result (λ all. ReadsSeparated (P.reads_as part.now) (terminal_of separator) all.items parser.old parser.new) }
    ensures refuses { IfErr result (RefusesSeparated (P.reads_as part.now) (P.refuses_as part.now) (terminal_of separator) parser.old parser.new) }
{
    let mut all = Vec::new(alloc);
    all.push(part.read(alloc, parser)?)?;
    loop {
        let Some(_) = parser.take(separator) else {
            return Ok(all);
        };
        all.push(part.read(alloc, parser)?)?;
    }
}
