//! Expressions, by the levels of their operators.

ghost use Rattle.std.specs.Prelude.{◌≡◌, ◌<◌, ◌≤◌, ◌⊎◌, ◌∷◌};
ghost use Rattle.sig_parse.specs.Prelude.{ℕ, suc, codes, IfOk, OnOk, MatchOption, MatchBool, IfSome, IfErr, OnErr, UnOp, Constant, expression_of, Binary, Cell, leaf, mark, unary_terminal, default_level, mixed_level, relation_level, delay_level, primary_level, unary_level, both_limits, operators, IsInit, IsAtLevel, IsExpression, StopsBefore, StartsWith, ContinuesDelay, ContinuesExpression, IsAtom, IsOperand};
ghost use Rattle.sig_parse.specs.inner.Operators.{level_number, first_level, infix_terminal, infix_level, IsOperator, IsOperatorOf, IsInfix, ContinuesStep, BeginsAtom, Completes, ReadsStep, RefusesInit};
ghost use Rattle.sig_parse.specs.Reads.{Reads, Shorter, IsLeaf};
ghost use Rattle.sig_parse.specs.Refusals.{IsOfText};
ghost use Rattle.sig_parse.specs.Languages.{InLevel, InOperand, InStep};
ghost use Rattle.sig_parse.specs.Refusals.{cause_of, Refuses, RefusedBy};

use crate::constant::{init, optional_init};
use crate::keyword::Keyword;
use crate::operator::{
    Infix, Level, infix_of, level_of, operand_level, prefix_of, right_level, tighter, tightness,
};
use crate::parser::{Parser, inside};
use crate::refusal::Refusal;
use crate::separated::Part;
use sig_base::Span;
use sig_tree::{BinOp, Constant, Expr, UnOp};
use std::alloc::Global;

/// An expression, inside so many constructs.
pub fn expression(alloc: Global, parser: &mut Parser, depth: u32) -> Result<Expr, Refusal>
    ensures reads { IfOk result (λ e. Reads (IsExpression both_limits depth (expression_of e)) (operators (expression_of e)) parser.old parser.new) }
    ensures shorter { OnOk result (Shorter parser.old parser.new) }
    ensures stops { OnOk result (StopsBefore (ContinuesExpression default_level) parser.new.leaves) }
    ensures refuses { IfErr result (λ why. parser.old.operators ≤ 512 → RefusedBy (InLevel default_level depth parser.old.operators) (ContinuesExpression default_level) parser.old parser.new why) }
{
    at_level(alloc, parser, Level::Default, depth)
}

/// An expression of several, each inside so many constructs.
#[derive(Clone, Copy)]
pub struct OneExpression {
    pub depth: u32,
}

impl Part for OneExpression {
    type Tree = Expr;

    ghost reads_as = { λ part e before after. Reads (IsExpression both_limits part.depth (expression_of e)) (operators (expression_of e)) before after
        × StopsBefore (ContinuesExpression default_level) after.leaves };

    ghost refuses_as = { λ part why before after. before.operators ≤ 512
        → RefusedBy (InLevel default_level part.depth before.operators) (ContinuesExpression default_level) before after why };

    fn read(&self, alloc: Global, parser: &mut Parser) -> Result<Expr, Refusal> {
        expression(alloc, parser, self.depth)
    }
}

/// An expression of a level: its first operand, and operators of the level with what they take.
#[cycle(expression)]
fn at_level(alloc: Global, parser: &mut Parser, level: Level, depth: u32) -> Result<Expr, Refusal>
    ensures reads { IfOk result (λ e. Reads (IsAtLevel both_limits (level_number level) depth (expression_of e)) (operators (expression_of e)) parser.old parser.new) }
    ensures shorter { OnOk result (Shorter parser.old parser.new) }
    ensures stops { OnOk result (StopsBefore (ContinuesExpression (level_number level)) parser.new.leaves) }
    ensures refuses { IfErr result (λ why. parser.old.operators ≤ 512 → RefusedBy (InLevel (level_number level) depth parser.old.operators) (ContinuesExpression (level_number level)) parser.old parser.new why) }
{
    let mut left = operand(alloc, parser, level, depth)?;
    nothing_tighter(parser, level)?;
    loop {
        let Some((op, at)) = infix(parser, level)? else {
            return Ok(left);
        };
        left = completed(alloc, parser, left, op, at, depth)?;
        if level == Level::Relation {
            no_relation(parser)?;
            return Ok(left);
        }
    }
}

/// Behind a relation stands no relation.
fn no_relation(parser: &Parser) -> Result<(), Refusal>
    ensures stops { OnOk result (StopsBefore (IsOperatorOf relation_level) parser.now.leaves) }
    ensures refused { IfErr result (λ why. (why ≡ Refusal.Syntax) × StartsWith (IsOperatorOf relation_level) parser.now.leaves) }
{
    match next_infix(parser) {
        Some(op) if level_of(op) == Level::Relation => Err(Refusal::Syntax),
        _ => Ok(()),
    }
}

/// Behind an operand of a level, and behind an operator of it and what it takes, stands no tighter
/// operator, and nothing of a delay.
fn nothing_tighter(parser: &Parser, level: Level) -> Result<(), Refusal>
    ensures stops { OnOk result (StopsBefore (ContinuesStep (level_number level)) parser.now.leaves) }
    ensures refused { IfErr result (λ why. (why ≡ Refusal.Syntax) × StartsWith (ContinuesStep (level_number level)) parser.now.leaves) }
{
    if continues_delay_of(parser, level) {
        return Err(Refusal::Syntax);
    }
    match next_infix(parser) {
        Some(op) if tightness(level) < tightness(level_of(op)) => Err(Refusal::Syntax),
        _ => Ok(()),
    }
}

/// Whether a `1` or an init is next, behind what could end with a delay.
fn continues_delay_of(parser: &Parser, level: Level) -> bool
    ensures { MatchBool result ((level_number level ≤ delay_level) × StartsWith ContinuesDelay parser.now.leaves) (level_number level ≤ delay_level → StopsBefore ContinuesDelay parser.now.leaves) }
{
    tightness(level) < tightness(Level::Primary) && continues_delay(parser)
}

/// Whether a `1` or an init is next.
fn continues_delay(parser: &Parser) -> bool
    ensures { MatchBool result (StartsWith ContinuesDelay parser.now.leaves) (StopsBefore ContinuesDelay parser.now.leaves) }
{
    parser.is_one() || parser.is(Keyword::Init)
}

/// The operator behind an operand that is next.
fn next_infix(parser: &Parser) -> Option<Infix>
    ensures { MatchOption result (StopsBefore IsOperator parser.now.leaves) (λ op. StartsWith (λ t. t ≡ infix_terminal op) parser.now.leaves) }
{
    match parser.keyword() {
        Some(keyword) => infix_of(keyword),
        None => None,
    }
}

/// The operator of a level that is next, behind an operand.
fn infix(parser: &mut Parser, level: Level) -> Result<Option<(Infix, Span)>, Refusal>
    ensures reads { IfOk result (λ found. MatchOption found ((parser.new ≡ parser.old) × StopsBefore (IsOperatorOf (level_number level)) parser.old.leaves) (λ f. IsInfix f.0 level (infix_terminal f.0)
        × Reads (IsLeaf (infix_terminal f.0) f.1) 1 parser.old parser.new × Shorter parser.old parser.new)) }
    ensures stays { OnErr result (parser.new ≡ parser.old) }
    ensures full { IfErr result (λ why. (why ≡ Refusal.Operators) × (512 ≤ parser.old.operators) × StartsWith (IsOperatorOf (level_number level)) parser.old.leaves) }
{
    let Some(keyword) = parser.keyword() else {
        return Ok(None);
    };
    match infix_of(keyword) {
        Some(op) if level_of(op) == level => Ok(Some((op, parser.operator(keyword)?))),
        _ => Ok(None),
    }
}

/// The operator of a level that is next, before an operand, and how deep the operand stands.
fn prefix(
    parser: &mut Parser,
    level: Level,
    depth: u32,
) -> Result<Option<(UnOp, Span, u32)>, Refusal>
    ensures reads { IfOk result (λ found. MatchOption found ((parser.new ≡ parser.old) × ((op : UnOp) → unary_level op ≡ level_number level → StopsBefore (λ t. t ≡ unary_terminal op) parser.old.leaves)) (λ f. (unary_level f.0 ≡ level_number level) × (depth < 64) × (f.2 ≡ suc depth)
        × Reads (IsLeaf (unary_terminal f.0) f.1) 1 parser.old parser.new × Shorter parser.old parser.new)) }
    ensures stays { OnErr result (parser.new ≡ parser.old) }
    ensures refused { IfErr result (λ why. (op : UnOp) × (unary_level op ≡ level_number level) × StartsWith (λ t. t ≡ unary_terminal op) parser.old.leaves
        × (((why ≡ Refusal.Nesting) × (64 ≤ depth)) ⊎ ((why ≡ Refusal.Operators) × (depth < 64) × (512 ≤ parser.old.operators)))) }
{
    let Some(keyword) = parser.keyword() else {
        return Ok(None);
    };
    match prefix_of(level, keyword) {
        Some(op) => {
            let inner = inside(parser, depth)?;
            Ok(Some((op, parser.operator(keyword)?, inner)))
        }
        None => Ok(None),
    }
}

/// What stands left of the operators of a level.
#[cycle(expression)]
fn operand(alloc: Global, parser: &mut Parser, level: Level, depth: u32) -> Result<Expr, Refusal>
    ensures reads { IfOk result (λ e. Reads (IsAtLevel both_limits (first_level level) depth (expression_of e)) (operators (expression_of e)) parser.old parser.new) }
    ensures shorter { OnOk result (Shorter parser.old parser.new) }
    ensures operand { IfOk result (λ e. Reads (IsOperand both_limits (level_number level) depth (expression_of e)) (operators (expression_of e)) parser.old parser.new) }
    ensures stops { OnOk result (StopsBefore (ContinuesExpression (suc (level_number level))) parser.new.leaves) }
    ensures refuses { IfErr result (λ why. parser.old.operators ≤ 512 → RefusedBy (InOperand (level_number level) depth parser.old.operators) (ContinuesExpression (suc (level_number level))) parser.old parser.new why) }
{
    if let Some((op, at, inner)) = prefix(parser, level, depth)? {
        let e = at_level(alloc, parser, operand_level(op), inner)?;
        return Ok(Expr::Unary(op, Box::new(alloc, e)?, at));
    }
    match tighter(level) {
        Some(next) => at_level(alloc, parser, next, depth),
        None => primary(alloc, parser, depth),
    }
}

/// An expression from its left operand and its operator on.
#[cycle(expression)]
fn completed(
    alloc: Global,
    parser: &mut Parser,
    left: Expr,
    op: Infix,
    at: Span,
    depth: u32,
) -> Result<Expr, Refusal>
    ensures completes { IfOk result (λ e. Completes depth (expression_of left) op at (expression_of e) parser.old parser.new) }
    ensures step { OnOk result (ReadsStep depth op at parser.old parser.new) }
    ensures stops { OnOk result (StopsBefore (ContinuesStep (infix_level op)) parser.new.leaves) }
    ensures refuses { IfErr result (λ why. (used : ℕ) → parser.old.operators ≡ suc used → parser.old.operators ≤ 512 → IsOfText why
        → Refuses (InStep (infix_level op) depth used) (ContinuesStep (infix_level op)) (cause_of why) (leaf (infix_terminal op) at ∷ parser.old.leaves) parser.new.leaves) }
{
    match op {
        Infix::Binary(op) => {
            let right = at_level(alloc, parser, right_level(op), depth)?;
            joined(alloc, op, left, right, at)
        }
        Infix::Cell => {
            let held = at_level(alloc, parser, Level::Primary, depth)?;
            cell(alloc, parser, left, held, at)
        }
        Infix::Delay => delay(alloc, parser, left, at),
    }
}

/// Two operands and the operator between them.
fn joined(alloc: Global, op: BinOp, left: Expr, right: Expr, at: Span) -> Result<Expr, Refusal>
    ensures value { IfOk result (λ e. expression_of e ≡ Binary op (expression_of left) (expression_of right) at) }
    ensures wanting { IfErr result (λ why. why ≡ Refusal.OutOfMemory) }
{
    let left = Box::new(alloc, left)?;
    Ok(Expr::Binary(op, left, Box::new(alloc, right)?, at))
}

/// The init of a cell, with nothing tighter behind it.
fn last_init(alloc: Global, parser: &mut Parser) -> Result<Constant, Refusal>
    ensures reads { IfOk result (λ constant. Reads (IsInit constant) 0 parser.old parser.new) }
    ensures stops { OnOk result (StopsBefore (ContinuesStep mixed_level) parser.new.leaves) }
    ensures refuses { IfErr result (λ why. RefusesInit why parser.old parser.new) }
{
    let constant = init(alloc, parser)?;
    nothing_tighter(parser, Level::Mixed)?;
    Ok(constant)
}

/// A cell behind what it holds.
fn cell(
    alloc: Global,
    parser: &mut Parser,
    left: Expr,
    held: Expr,
    at: Span,
) -> Result<Expr, Refusal>
    ensures reads { IfOk result (λ e. (constant : Constant) × (expression_of e ≡ Cell (expression_of left) (expression_of held) constant at) × Reads (IsInit constant) 0 parser.old parser.new) }
    ensures stops { OnOk result (StopsBefore (ContinuesStep mixed_level) parser.new.leaves) }
    ensures refuses { IfErr result (λ why. RefusesInit why parser.old parser.new) }
{
    let constant = last_init(alloc, parser)?;
    let left = Box::new(alloc, left)?;
    Ok(Expr::Cell(left, Box::new(alloc, held)?, constant, at))
}

/// A delay behind its operator, with nothing tighter behind it.
fn delay(alloc: Global, parser: &mut Parser, left: Expr, at: Span) -> Result<Expr, Refusal>
    ensures completes { IfOk result (λ e. (depth : ℕ) → Completes depth (expression_of left) Infix.Delay at (expression_of e) parser.old parser.new) }
    ensures step { OnOk result ((depth : ℕ) → ReadsStep depth Infix.Delay at parser.old parser.new) }
    ensures stops { OnOk result (StopsBefore (ContinuesStep delay_level) parser.new.leaves) }
    ensures refuses { IfErr result (λ why. (depth used : ℕ) → parser.old.operators ≡ suc used → parser.old.operators ≤ 512 → IsOfText why
        → Refuses (InStep delay_level depth used) (ContinuesStep delay_level) (cause_of why) (leaf (infix_terminal Infix.Delay) at ∷ parser.old.leaves) parser.new.leaves) }
{
    parser.take_one();
    let constant = optional_init(alloc, parser)?;
    nothing_tighter(parser, Level::Delay)?;
    Ok(Expr::Delay(Box::new(alloc, left)?, constant, at))
}

/// A name, a number, a truth, or an expression in parentheses.
#[cycle(expression)]
fn primary(alloc: Global, parser: &mut Parser, depth: u32) -> Result<Expr, Refusal>
    ensures reads { IfOk result (λ e. Reads (IsAtLevel both_limits primary_level depth (expression_of e)) (operators (expression_of e)) parser.old parser.new) }
    ensures shorter { OnOk result (Shorter parser.old parser.new) }
    ensures operand { IfOk result (λ e. Reads (IsOperand both_limits primary_level depth (expression_of e)) (operators (expression_of e)) parser.old parser.new) }
    ensures refuses { IfErr result (λ why. parser.old.operators ≤ 512 → StopsBefore (λ t. t ≡ mark (codes "^")) parser.old.leaves
        → RefusedBy (InOperand primary_level depth parser.old.operators) (ContinuesExpression (suc primary_level)) parser.old parser.new why) }
{
    if parser.is(Keyword::Open) {
        enclosed(alloc, parser, depth)
    } else {
        atom(alloc, parser)
    }
}

/// An expression in parentheses.
#[cycle(expression)]
fn enclosed(alloc: Global, parser: &mut Parser, depth: u32) -> Result<Expr, Refusal>
    ensures reads { IfOk result (λ e. Reads (IsAtLevel both_limits primary_level depth (expression_of e)) (operators (expression_of e)) parser.old parser.new) }
    ensures shorter { OnOk result (Shorter parser.old parser.new) }
    ensures operand { IfOk result (λ e. Reads (IsOperand both_limits primary_level depth (expression_of e)) (operators (expression_of e)) parser.old parser.new) }
    ensures refuses { IfErr result (λ why. parser.old.operators ≤ 512 → StartsWith (λ t. t ≡ mark (codes "(")) parser.old.leaves
        → RefusedBy (InOperand primary_level depth parser.old.operators) (ContinuesExpression (suc primary_level)) parser.old parser.new why) }
{
    let inner = inside(parser, depth)?;
    parser.expect(Keyword::Open)?;
    let e = at_level(alloc, parser, Level::Default, inner)?;
    parser.expect(Keyword::Close)?;
    Ok(e)
}

/// A name, a number or a truth.
fn atom(alloc: Global, parser: &mut Parser) -> Result<Expr, Refusal>
    ensures reads { IfOk result (λ e. (depth : ℕ) → Reads (IsAtLevel both_limits primary_level depth (expression_of e)) (operators (expression_of e)) parser.old parser.new) }
    ensures shorter { OnOk result (Shorter parser.old parser.new) }
    ensures stays { IfErr result (λ why. IsOfText why → parser.new ≡ parser.old) }
    ensures atom { IfOk result (λ e. Reads (IsAtom (expression_of e)) (operators (expression_of e)) parser.old parser.new) }
    ensures missing { IfErr result (λ why. IsOfText why → (why ≡ Refusal.Syntax) × StopsBefore BeginsAtom parser.old.leaves) }
{
    if let Some((number, at)) = parser.take_number() {
        return Ok(Expr::Int(number.value, at));
    }
    if let Some(at) = parser.take(Keyword::True) {
        return Ok(Expr::Bool(true, at));
    }
    if let Some(at) = parser.take(Keyword::False) {
        return Ok(Expr::Bool(false, at));
    }
    Ok(Expr::Name(parser.name(alloc)?))
}
