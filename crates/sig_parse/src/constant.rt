//! Constants and inits.

ghost use Rattle.std.specs.Prelude.{◌∷◌, ◌≡◌};
ghost use Rattle.sig_parse.specs.Prelude.{codes, IfOk, OnOk, IfErr, OnErr, leaf, mark, IsConstant, IsInit, IsOptionalInit, ContinuesNothing, ContinuesInit};
ghost use Rattle.sig_parse.specs.Reads.{Reads, Shorter};
ghost use Rattle.sig_parse.specs.Refusals.{IsOfText};
ghost use Rattle.sig_parse.specs.Languages.{InNumber, InConstant, InInit, InOptionalInit};
ghost use Rattle.sig_parse.specs.Refusals.{RefusedBy};
ghost use Rattle.sig_parse.specs.Settling.{Settles};

use crate::keyword::Keyword;
use crate::parser::Parser;
use crate::refusal::Refusal;
use sig_base::Span;
use sig_tree::Constant;
use std::alloc::Global;

/// A constant.
pub fn constant(alloc: Global, parser: &mut Parser) -> Result<Constant, Refusal>
    ensures reads { IfOk result (λ constant. Reads (IsConstant constant) 0 parser.old parser.new) }
    ensures shorter { OnOk result (Shorter parser.old parser.new) }
    ensures refuses { IfErr result (RefusedBy InConstant ContinuesNothing parser.old parser.new) }
{
    if let Some((number, at)) = parser.take_number() {
        return Ok(Constant::Int(number.value as i64, at));
    }
    if let Some(at) = parser.take(Keyword::True) {
        return Ok(Constant::Bool(true, at));
    }
    if let Some(at) = parser.take(Keyword::False) {
        return Ok(Constant::Bool(false, at));
    }
    if let Some(at) = parser.take(Keyword::Minus) {
        return negative(parser, at);
    }
    Ok(Constant::Param(parser.name(alloc)?))
}

/// The number behind a `-`, which stands at this place, as a constant.
fn negative(parser: &mut Parser, at: Span) -> Result<Constant, Refusal>
    ensures reads { IfOk result (λ constant. Reads (λ behind. IsConstant constant (leaf (mark (codes "-")) at ∷ behind)) 0 parser.old parser.new) }
    ensures stays { OnErr result (parser.new ≡ parser.old) }
    ensures refuses { IfErr result (RefusedBy InNumber ContinuesNothing parser.old parser.new) }
{
    match parser.take_number() {
        Some((number, _)) => Ok(Constant::Int(-(number.value as i64), at)),
        None => Err(Refusal::Syntax),
    }
}

/// `init` and a constant.
pub fn init(alloc: Global, parser: &mut Parser) -> Result<Constant, Refusal>
    ensures reads { IfOk result (λ constant. Reads (IsInit constant) 0 parser.old parser.new) }
    ensures shorter { OnOk result (Shorter parser.old parser.new) }
    ensures refuses { IfErr result (RefusedBy InInit ContinuesNothing parser.old parser.new) }
{
    let _at = parser.expect(Keyword::Init)?;
    constant(alloc, parser)
}

/// `init` and a constant, where `init` is next.
pub fn optional_init(alloc: Global, parser: &mut Parser) -> Result<Option<Constant>, Refusal>
    ensures reads { IfOk result (λ constant. Reads (IsOptionalInit constant) 0 parser.old parser.new) }
    ensures settles { OnOk result (Settles InOptionalInit ContinuesInit parser.old.leaves parser.new.leaves) }
    ensures refuses { IfErr result (RefusedBy InOptionalInit ContinuesInit parser.old parser.new) }
{
    if parser.is(Keyword::Init) {
        Ok(Some(init(alloc, parser)?))
    } else {
        Ok(None)
    }
}
