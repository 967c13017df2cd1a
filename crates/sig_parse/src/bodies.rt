//! Definitions, clock equations and bodies.

ghost use Rattle.std.specs.Prelude.{◌≡◌};
ghost use Rattle.sig_parse.specs.Prelude.{codes, map, IfOk, OnOk, IfErr, expression_of, equations_of, mark, both_limits, Listed, IsClockEquation, IsBody, StartsWith, StopsBefore, ContinuesNothing, ContinuesDefinition, ContinuesClockEquation, ContinuesBody};
ghost use Rattle.sig_parse.specs.Languages.{InDefinition, InClockEquation};
ghost use Rattle.sig_parse.specs.Parts.{InBody, InBodies};
ghost use Rattle.sig_parse.specs.Reads.{Covers};
ghost use Rattle.sig_parse.specs.Refusals.{RefusedBy};
ghost use Rattle.sig_parse.specs.Settling.{Settles, Closes};
ghost use Rattle.sig_parse.specs.Refusals.{IsOfText};

use crate::ahead::begins_definition;
use crate::expression::OneExpression;
use crate::keyword::Keyword;
use crate::parser::{Parser, inside};
use crate::refusal::Refusal;
use crate::separated::separated;
use crate::sides::{left_side, right_side};
use sig_tree::{Body, Expr};
use std::alloc::Global;

/// A definition: a left side, `:=` and a right side.
fn definition(alloc: Global, parser: &mut Parser, depth: u32) -> Result<Body, Refusal>
    ensures reads { IfOk result (λ body. Covers (IsBody both_limits (equations_of body) depth) parser.old parser.new) }
    ensures settles { OnOk result (Settles (InDefinition depth) ContinuesDefinition parser.old.leaves parser.new.leaves) }
    ensures refuses { IfErr result (RefusedBy (InDefinition depth) ContinuesDefinition parser.old parser.new) }
{
    parser.begin_equation();
    let names = left_side(alloc, parser, depth)?;
    let _defines = parser.expect(Keyword::Define)?;
    let right = right_side(alloc, parser, depth)?;
    Ok(Body::Def(names, right))
}

/// A clock equation: two or more expressions with `^=` between them.
fn clock_equation(alloc: Global, parser: &mut Parser, depth: u32) -> Result<Body, Refusal>
    ensures reads { IfOk result (λ body. Covers (IsBody both_limits (equations_of body) depth) parser.old parser.new) }
    ensures settles { OnOk result (Settles (InClockEquation depth) ContinuesClockEquation parser.old.leaves parser.new.leaves) }
    ensures refuses { IfErr result (RefusedBy (InClockEquation depth) ContinuesClockEquation parser.old parser.new) }
{
    parser.begin_equation();
    Ok(Body::Same(operands(alloc, parser, depth)?))
}

/// The operands of a clock equation: two or more.
fn operands(alloc: Global, parser: &mut Parser, depth: u32) -> Result<Vec<Expr>, Refusal>
    requires { parser.old.operators ≡ 0 }
    ensures reads { IfOk result (λ operands. Covers (IsClockEquation both_limits depth (map expression_of operands.items)) parser.old parser.new) }
    ensures stops { OnOk result (StopsBefore ContinuesClockEquation parser.new.leaves) }
    ensures refuses { IfErr result (RefusedBy (InClockEquation depth) ContinuesClockEquation parser.old parser.new) }
{
    let all = separated(alloc, parser, &OneExpression { depth }, Keyword::SameClock)?;
    if all.len() < 2 {
        return Err(Refusal::Syntax);
    }
    Ok(all)
}

/// A body, inside so many constructs.
#[cycle(body)]
pub fn body(alloc: Global, parser: &mut Parser, depth: u32) -> Result<Body, Refusal>
    ensures reads { IfOk result (λ body. Covers (IsBody both_limits (equations_of body) depth) parser.old parser.new) }
    ensures settles { OnOk result (Settles (InBody depth) ContinuesBody parser.old.leaves parser.new.leaves) }
    ensures refuses { IfErr result (RefusedBy (InBody depth) ContinuesBody parser.old parser.new) }
{
    if parser.is(Keyword::BodyOpen) {
        together(alloc, parser, depth)
    } else if begins_definition(parser) {
        definition(alloc, parser, depth)
    } else {
        clock_equation(alloc, parser, depth)
    }
}

/// Bodies between `(|` and `|)`.
#[cycle(body)]
fn together(alloc: Global, parser: &mut Parser, depth: u32) -> Result<Body, Refusal>
    requires opens { StartsWith (λ t. t ≡ mark (codes "(|")) parser.old.leaves }
    ensures reads { IfOk result (λ body. Covers (IsBody both_limits (equations_of body) depth) parser.old parser.new) }
    ensures settles { OnOk result (Settles (InBody depth) ContinuesBody parser.old.leaves parser.new.leaves) }
    ensures refuses { IfErr result (RefusedBy (InBody depth) ContinuesBody parser.old parser.new) }
{
    let inner = inside(parser, depth)?;
    let _opened = parser.expect(Keyword::BodyOpen)?;
    let all = bodies(alloc, parser, inner)?;
    let _closed = parser.expect(Keyword::BodyClose)?;
    Ok(Body::All(all))
}

/// Bodies with `|` between them, up to `|)`.
#[cycle(body)]
fn bodies(alloc: Global, parser: &mut Parser, depth: u32) -> Result<Vec<Body>, Refusal>
    ensures reads { IfOk result (λ bodies. Covers (Listed (λ body leaves. IsBody both_limits body depth leaves) (mark (codes "|")) (map equations_of bodies.items)) parser.old parser.new) }
    // Where "|)" is not next, the next token is refused.
    ensures closes { OnOk result (Closes (InBodies depth) (mark (codes "|)")) parser.old.leaves parser.new.leaves) }
    ensures refuses { IfErr result (RefusedBy (InBodies depth) ContinuesNothing parser.old parser.new) }
{
    let mut all = Vec::new(alloc);
    if parser.is(Keyword::BodyClose) {
        return Ok(all);
    }
    all.push(body(alloc, parser, depth)?)?;
    loop {
        let Some(_) = parser.take(Keyword::Bar) else {
            return Ok(all);
        };
        all.push(body(alloc, parser, depth)?)?;
    }
}
