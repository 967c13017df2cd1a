//! Pragmas.

ghost use Rattle.sig_parse.specs.Prelude.{codes, map, IfOk, OnOk, IfErr, placement_of, mark, word, Between, Each, Separated, IsName, IsPlacement, ArePragmas, ContinuesNothing, ContinuesOptional};
ghost use Rattle.sig_parse.specs.Parts.{InBraced, InPragma, InPragmaList, InPragmas};
ghost use Rattle.sig_parse.specs.Reads.{Reads, Shorter};
ghost use Rattle.sig_parse.specs.Refusals.{RefusedBy};
ghost use Rattle.sig_parse.specs.Settling.{Settles, Closes};
ghost use Rattle.sig_parse.specs.Refusals.{IsOfText};

use crate::keyword::Keyword;
use crate::parser::Parser;
use crate::refusal::Refusal;
use crate::sides::names;
use sig_tree::{Name, RunOn};
use std::alloc::Global;

/// Names in braces.
fn braced_names(alloc: Global, parser: &mut Parser) -> Result<Vec<Name>, Refusal>
    ensures reads { IfOk result (λ names. Reads (Between (mark (codes "{")) (mark (codes "}")) (Separated IsName (mark (codes ",")) names.items)) 0 parser.old parser.new) }
    ensures refuses { IfErr result (RefusedBy InBraced ContinuesNothing parser.old parser.new) }
{
    let _opened = parser.expect(Keyword::BraceOpen)?;
    let all = names(alloc, parser)?;
    let _closed = parser.expect(Keyword::BraceClose)?;
    Ok(all)
}

/// `RunOn`, names in braces, and a label.
fn pragma(alloc: Global, parser: &mut Parser) -> Result<RunOn, Refusal>
    ensures reads { IfOk result (λ pragma. Reads (IsPlacement (placement_of pragma)) 0 parser.old parser.new) }
    ensures shorter { OnOk result (Shorter parser.old parser.new) }
    ensures refuses { IfErr result (RefusedBy InPragma ContinuesNothing parser.old parser.new) }
{
    let at = parser.run_on()?;
    let names = braced_names(alloc, parser)?;
    let (label, _at) = parser.label(alloc)?;
    Ok(RunOn { names, label, at })
}

/// Pragmas, up to `end`.
fn pragma_list(alloc: Global, parser: &mut Parser) -> Result<Vec<RunOn>, Refusal>
    ensures reads { IfOk result (λ pragmas. Reads (Each IsPlacement (map placement_of pragmas.items)) 0 parser.old parser.new) }
    // Where `end` is not next, the next token is refused.
    ensures closes { OnOk result (Closes InPragmaList (word (codes "end")) parser.old.leaves parser.new.leaves) }
    ensures refuses { IfErr result (RefusedBy InPragmaList ContinuesNothing parser.old parser.new) }
{
    let mut all = Vec::new(alloc);
    loop {
        if parser.is(Keyword::End) {
            return Ok(all);
        }
        all.push(pragma(alloc, parser)?)?;
    }
}

/// Pragmas between `pragmas` and `end pragmas`, where the word is next.
pub fn pragmas(alloc: Global, parser: &mut Parser) -> Result<Vec<RunOn>, Refusal>
    ensures reads { IfOk result (λ pragmas. Reads (ArePragmas (map placement_of pragmas.items)) 0 parser.old parser.new) }
    ensures settles { OnOk result (Settles InPragmas (ContinuesOptional (word (codes "pragmas"))) parser.old.leaves parser.new.leaves) }
    ensures refuses { IfErr result (RefusedBy InPragmas (ContinuesOptional (word (codes "pragmas"))) parser.old parser.new) }
{
    let Some(_first) = parser.take(Keyword::Pragmas) else {
        return Ok(Vec::new(alloc));
    };
    let all = pragma_list(alloc, parser)?;
    let _ended = parser.expect(Keyword::End)?;
    let _last = parser.expect(Keyword::Pragmas)?;
    Ok(all)
}
