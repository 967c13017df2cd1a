//! The sides of definitions.

ghost use Rattle.std.specs.Prelude.{◌≤◌};
ghost use Rattle.sig_parse.specs.Prelude.{codes, map, sum_by, IfOk, OnOk, IfErr, expression_of, right_side_of, mark, both_limits, operators, right_operators, Separated, Listed, IsConstant, IsExpression, IsName, IsLeft, AreConstants, AreArguments, IsRight, StopsBefore, ContinuesNothing, ContinuesOptional, ContinuesList, ContinuesDefinition};
ghost use Rattle.sig_parse.specs.inner.Ahead.{BeginsCall};
ghost use Rattle.sig_parse.specs.Languages.{InName, InConstant, InLeft, InConstantList, InConstants, InArgumentList, InArguments, InRight};
ghost use Rattle.sig_parse.specs.Parts.{InNames};
ghost use Rattle.sig_parse.specs.Refusals.{RefusedBy};
ghost use Rattle.sig_parse.specs.Settling.{Settles, Closes};
ghost use Rattle.sig_parse.specs.Reads.{Reads};
ghost use Rattle.sig_parse.specs.Refusals.{IsOfText};

use crate::ahead::begins_call;
use crate::constant::constant;
use crate::expression::{OneExpression, expression};
use crate::keyword::Keyword;
use crate::parser::{Parser, inside};
use crate::refusal::Refusal;
use crate::separated::{Part, separated};
use sig_tree::{Constant, Expr, Name, Right};
use std::alloc::Global;

/// A name of several.
#[derive(Clone, Copy)]
struct OneName;

impl Part for OneName {
    type Tree = Name;

    ghost reads_as = { λ _ name before after. Reads (IsName name) 0 before after };

    ghost refuses_as = { λ _ why before after. RefusedBy InName ContinuesNothing before after why };

    fn read(&self, alloc: Global, parser: &mut Parser) -> Result<Name, Refusal> {
        parser.name(alloc)
    }
}

/// Names with `,` between them.
pub fn names(alloc: Global, parser: &mut Parser) -> Result<Vec<Name>, Refusal>
    ensures reads { IfOk result (λ names. Reads (Separated IsName (mark (codes ",")) names.items) 0 parser.old parser.new) }
    ensures stops { OnOk result (StopsBefore (ContinuesList (mark (codes ",")) ContinuesNothing) parser.new.leaves) }
    ensures refuses { IfErr result (RefusedBy InNames (ContinuesList (mark (codes ",")) ContinuesNothing) parser.old parser.new) }
{
    separated(alloc, parser, &OneName, Keyword::Comma)
}

/// A name, or names in parentheses.
pub fn left_side(alloc: Global, parser: &mut Parser, depth: u32) -> Result<Vec<Name>, Refusal>
    ensures reads { IfOk result (λ names. Reads (IsLeft both_limits depth names.items) 0 parser.old parser.new) }
    ensures refuses { IfErr result (RefusedBy (InLeft depth) ContinuesNothing parser.old parser.new) }
{
    if parser.is(Keyword::Open) {
        inside(parser, depth)?;
        let _opened = parser.expect(Keyword::Open)?;
        let all = names(alloc, parser)?;
        let _closed = parser.expect(Keyword::Close)?;
        Ok(all)
    } else {
        let mut all = Vec::new(alloc);
        all.push(parser.name(alloc)?)?;
        Ok(all)
    }
}

/// A constant of several.
#[derive(Clone, Copy)]
struct OneConstant;

impl Part for OneConstant {
    type Tree = Constant;

    ghost reads_as = { λ _ constant before after. Reads (IsConstant constant) 0 before after };

    ghost refuses_as = { λ _ why before after. RefusedBy InConstant ContinuesNothing before after why };

    fn read(&self, alloc: Global, parser: &mut Parser) -> Result<Constant, Refusal> {
        constant(alloc, parser)
    }
}

/// Constants with `,` between them, up to `}`.
fn constant_list(alloc: Global, parser: &mut Parser) -> Result<Vec<Constant>, Refusal>
    ensures reads { IfOk result (λ constants. Reads (Listed IsConstant (mark (codes ",")) constants.items) 0 parser.old parser.new) }
    ensures closes { OnOk result (Closes InConstantList (mark (codes "}")) parser.old.leaves parser.new.leaves) }
    ensures refuses { IfErr result (RefusedBy InConstantList ContinuesNothing parser.old parser.new) }
{
    if parser.is(Keyword::BraceClose) {
        return Ok(Vec::new(alloc));
    }
    separated(alloc, parser, &OneConstant, Keyword::Comma)
}

/// Constants in braces, where `{` is next.
fn constants(alloc: Global, parser: &mut Parser) -> Result<Vec<Constant>, Refusal>
    ensures reads { IfOk result (λ constants. Reads (AreConstants constants.items) 0 parser.old parser.new) }
    ensures settles { OnOk result (Settles InConstants (ContinuesOptional (mark (codes "{"))) parser.old.leaves parser.new.leaves) }
    ensures refuses { IfErr result (RefusedBy InConstants (ContinuesOptional (mark (codes "{"))) parser.old parser.new) }
{
    let Some(_opened) = parser.take(Keyword::BraceOpen) else {
        return Ok(Vec::new(alloc));
    };
    let all = constant_list(alloc, parser)?;
    let _closed = parser.expect(Keyword::BraceClose)?;
    Ok(all)
}

/// Expressions with `,` between them, up to `)`.
fn argument_list(alloc: Global, parser: &mut Parser, depth: u32) -> Result<Vec<Expr>, Refusal>
    ensures reads { IfOk result (λ arguments. Reads (Listed (IsExpression both_limits depth) (mark (codes ",")) (map expression_of arguments.items))
        (sum_by operators (map expression_of arguments.items)) parser.old parser.new) }
    ensures closes { OnOk result (parser.old.operators ≤ 512 → Closes (InArgumentList depth parser.old.operators) (mark (codes ")")) parser.old.leaves parser.new.leaves) }
    ensures refuses { IfErr result (λ why. parser.old.operators ≤ 512 → RefusedBy (InArgumentList depth parser.old.operators) ContinuesNothing parser.old parser.new why) }
{
    if parser.is(Keyword::Close) {
        return Ok(Vec::new(alloc));
    }
    separated(alloc, parser, &OneExpression { depth }, Keyword::Comma)
}

/// Expressions in parentheses.
fn arguments(alloc: Global, parser: &mut Parser, depth: u32) -> Result<Vec<Expr>, Refusal>
    ensures reads { IfOk result (λ arguments. Reads (AreArguments both_limits depth (map expression_of arguments.items))
        (sum_by operators (map expression_of arguments.items)) parser.old parser.new) }
    ensures refuses { IfErr result (λ why. parser.old.operators ≤ 512 → RefusedBy (InArguments depth parser.old.operators) ContinuesNothing parser.old parser.new why) }
{
    let _opened = parser.expect(Keyword::Open)?;
    let all = argument_list(alloc, parser, depth)?;
    let _closed = parser.expect(Keyword::Close)?;
    Ok(all)
}

/// A call or an expression.
pub fn right_side(alloc: Global, parser: &mut Parser, depth: u32) -> Result<Right, Refusal>
    ensures reads { IfOk result (λ right. Reads (IsRight both_limits depth (right_side_of right)) (right_operators (right_side_of right)) parser.old parser.new) }
    ensures settles { OnOk result (Settles (InRight depth parser.old.operators) ContinuesDefinition parser.old.leaves parser.new.leaves) }
    ensures refuses { IfErr result (λ why. parser.old.operators ≤ 512 → RefusedBy (InRight depth parser.old.operators) ContinuesDefinition parser.old parser.new why) }
{
    if begins_call(parser) {
        call(alloc, parser, depth)
    } else {
        Ok(Right::Value(expression(alloc, parser, depth)?))
    }
}

/// A name, constants where there are any, and arguments.
fn call(alloc: Global, parser: &mut Parser, depth: u32) -> Result<Right, Refusal>
    ensures reads { IfOk result (λ right. Reads (IsRight both_limits depth (right_side_of right)) (right_operators (right_side_of right)) parser.old parser.new) }
    ensures settles { OnOk result (Settles (InRight depth parser.old.operators) ContinuesDefinition parser.old.leaves parser.new.leaves) }
    ensures refuses { IfErr result (λ why. parser.old.operators ≤ 512 → BeginsCall parser.old.leaves → RefusedBy (InRight depth parser.old.operators) ContinuesDefinition parser.old parser.new why) }
{
    let name = parser.name(alloc)?;
    let values = constants(alloc, parser)?;
    let arguments = arguments(alloc, parser, depth)?;
    Ok(Right::Call(name, values, arguments))
}
