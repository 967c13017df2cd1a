//! Expressions, to the equations that they need.

ghost use Rattle.std.specs.Prelude.{◌≡◌, ◌<◌, ◌++◌};
ghost use Rattle.sig_flat.specs.Prelude.{None, Some, length, map, IfOk, OnOk, Delay, SigOf, flat_expression_of, kind_of_result, stored, unary_row};
ghost use Rattle.sig_flat.specs.Answers.{IsRefused};
ghost use Rattle.sig_flat.specs.inner.Drafts.{left_of, translated, together};
ghost use Rattle.sig_flat.specs.KernelOf.{Site as Place, binary, by_one, operands_from, place_of, signal_in, translate, unary_form};

use crate::answer::FlatAnswer;
use crate::derived::{cell, less, meet, plus};
use crate::draft::Draft;
use crate::operator::{binary_form, binary_kind, function_of_one, stored, unary_form, unary_kind};
use crate::site::Site;
use crate::term::{Term, signal_in};
use sig_base::{SigId, Span};
use sig_kernel::{Form, FunOp, Operand};
use sig_tree::{BinOp, FlatExpr, UnOp};
use std::alloc::{AllocError, Global};

/// An operator of one operand.
fn unary(
    draft: &mut Draft,
    alloc: Global,
    left: Option<SigId>,
    site: &Site,
    op: UnOp,
    at: Span,
    x: Term,
) -> Result<Term, FlatAnswer>
    ensures made { IfOk result (λ term. translated term draft.new ≡ by_one (left_of left) site.now (kind_of_result (unary_row op).result x.kind None) at (unary_form op x.operand) draft.old) }
    ensures refused { IsRefused result (512 < length (by_one (left_of left) site.now (kind_of_result (unary_row op).result x.kind None) at (unary_form op x.operand) draft.old).made.signals) }
{
    let kind = unary_kind(op, x.kind);
    let y = draft.own(alloc, left, site, kind, at)?;
    let form = unary_form(alloc, op, x.operand, y)?;
    draft.add(at, form)?;
    Ok(Term::signal(y, kind))
}

/// An operator of two operands.
fn binary(
    draft: &mut Draft,
    alloc: Global,
    left: Option<SigId>,
    site: &Site,
    op: BinOp,
    at: Span,
    u: Term,
    v: Term,
) -> Result<Term, FlatAnswer>
    ensures made { IfOk result (λ term. translated term draft.new ≡ binary (left_of left) site.now op at (translated u draft.old) (translated v draft.old)) }
    ensures refused { IsRefused result (512 < length (binary (left_of left) site.now op at (translated u draft.old) (translated v draft.old)).made.signals) }
{
    match op {
        BinOp::Plus => plus(draft, alloc, left, site, at, u.operand, v.operand),
        BinOp::Meet => meet(draft, alloc, left, site, at, u.operand, v.operand),
        BinOp::Less => less(draft, alloc, left, site, at, u.operand, v.operand),
        _ => {
            let kind = binary_kind(op, u.kind, v.kind);
            let y = draft.own(alloc, left, site, kind, at)?;
            let form = binary_form(alloc, op, u.operand, v.operand, y)?;
            draft.add(at, form)?;
            Ok(Term::signal(y, kind))
        }
    }
}

/// A delay of an operand.
fn delay(
    draft: &mut Draft,
    alloc: Global,
    left: Option<SigId>,
    site: &Site,
    init: i64,
    at: Span,
    x: Term,
) -> Result<Term, FlatAnswer>
    ensures made { IfOk result (λ term. translated term draft.new ≡ by_one (left_of left) site.now (stored x.kind) at (λ y. Delay y (signal_in x.operand) init) draft.old) }
    ensures refused { IsRefused result (512 < length (by_one (left_of left) site.now (stored x.kind) at (λ y. Delay y (signal_in x.operand) init) draft.old).made.signals) }
{
    let kind = stored(x.kind);
    let y = draft.own(alloc, left, site, kind, at)?;
    draft.add(at, Form::Delay(y, signal_in(x.operand), init))?;
    Ok(Term::signal(y, kind))
}

/// A name: the signal itself, or where it is a whole right side the left side.
fn name(
    draft: &mut Draft,
    alloc: Global,
    left: Option<SigId>,
    signal: SigId,
    at: Span,
) -> Result<Term, AllocError>
    ensures { (site : Place) → IfOk result (λ term. translated term draft.new ≡ translate (left_of left) site (SigOf signal.0 at) draft.old) }
{
    match left {
        None => Ok(Term::signal(signal, draft.kind(signal))),
        Some(left) => {
            let kind = draft.kind(left);
            let form = function_of_one(alloc, left, FunOp::Id, Operand::Sig(signal))?;
            draft.add(at, form)?;
            Ok(Term::signal(left, kind))
        }
    }
}

/// An expression: its operands first, left to right. Its top operator defines the left side, where
/// there is one.
#[tactic(auto, using(crate::proofs::Sizes::translate_no_less, crate::proofs::Sizes::binary_no_less, crate::proofs::Sizes::cell_no_less))]
pub fn translate(
    draft: &mut Draft,
    alloc: Global,
    left: Option<SigId>,
    site: &Site,
    e: &FlatExpr,
) -> Result<Term, FlatAnswer>
    ensures made { IfOk result (λ term. translated term draft.new ≡ translate (left_of left) site.now (flat_expression_of e.now) draft.old) }
    ensures refused { IsRefused result (512 < length (translate (left_of left) site.now (flat_expression_of e.now) draft.old).made.signals) }
{
    match e {
        FlatExpr::Sig(signal, at) => Ok(name(draft, alloc, left, *signal, *at)?),
        FlatExpr::Const(value, kind, _) => Ok(Term {
            operand: Operand::Const(*value),
            kind: *kind,
        }),
        FlatExpr::Unary(op, operand, at) => {
            let x = translate(draft, alloc, None, site, operand)?;
            unary(draft, alloc, left, site, *op, *at, x)
        }
        FlatExpr::Binary(op, first, second, at) => {
            let u = translate(draft, alloc, None, site, first)?;
            let v = translate(draft, alloc, None, site, second)?;
            binary(draft, alloc, left, site, *op, *at, u, v)
        }
        FlatExpr::Delay(operand, init, at) => {
            let x = translate(draft, alloc, None, site, operand)?;
            delay(draft, alloc, left, site, *init, *at, x)
        }
        FlatExpr::Cell(operand, held, init, at) => {
            let x = translate(draft, alloc, None, site, operand)?;
            let b = translate(draft, alloc, None, site, held)?;
            cell(draft, alloc, left, site, *at, *init, x, b)
        }
    }
}

/// The place of an expression: that of its name or of its operator.
fn place_of(e: &FlatExpr) -> Span
    ensures { result ≡ place_of (flat_expression_of e.now) }
{
    match e {
        FlatExpr::Sig(_, at) => *at,
        FlatExpr::Const(_, _, at) => *at,
        FlatExpr::Unary(_, _, at) => *at,
        FlatExpr::Binary(_, _, _, at) => *at,
        FlatExpr::Delay(_, _, at) => *at,
        FlatExpr::Cell(_, _, _, at) => *at,
    }
}

/// The signals of expressions, with their places.
pub fn operands(
    draft: &mut Draft,
    alloc: Global,
    site: &Site,
    expressions: &[FlatExpr],
) -> Result<Vec<(SigId, Span)>, FlatAnswer>
    ensures made { IfOk result (λ signals. together signals.items draft.new ≡ operands_from site.now (map flat_expression_of expressions.now) draft.old) }
    ensures refused { IsRefused result (512 < length (operands_from site.now (map flat_expression_of expressions.now) draft.old).made.signals) }
{
    let mut signals = Vec::new(alloc);
    for e in expressions {
        let x = translate(draft, alloc, None, site, e)?;
        signals.push((signal_in(x.operand), place_of(e)))?;
    }
    Ok(signals)
}
