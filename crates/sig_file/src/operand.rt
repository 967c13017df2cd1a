//! Functions with their operands.

ghost use Rattle.std.specs.Prelude.{◌≡◌};
ghost use Rattle.sig_file.specs.Prelude.{[], list_any};
ghost use Rattle.sig_file.specs.Prelude.{is_signal};
ghost use Rattle.sig_file.specs.Fields.{function_at, functions, may_follow, operand_at, operand_from, operand_tags};
ghost use Rattle.sig_file.specs.Images.{are_operands, kind_at, operand_count};
ghost use Rattle.sig_file.specs.inner.Reading.{Gives, added, choice_if, several};

use crate::choice::OperandTag;
use crate::field::{choice_at, long_at, number_at, text_at};
use crate::fits::{are_operands, kind_at, operand_count};
use crate::images::{ImageOpKind, ImageSignal};
use crate::stop::Stop;
use sig_base::{Kind, SigId};
use sig_kernel::{FunOp, Operand, Operands};
use std::alloc::Global;

/// The function of a byte, for a signal of this kind, and the bytes behind it.
fn op_at<'a>(
    signals: &[ImageSignal],
    kind: Option<Kind>,
    bytes: &'a [u8],
) -> Result<(FunOp, &'a [u8]), Stop>
    ensures { Gives (λ x. (x.0, x.1.now)) result (choice_if functions (λ op. are_operands signals.now op kind []) bytes.now) }
{
    let functions = [
        FunOp::Id,
        FunOp::Neg,
        FunOp::Not,
        FunOp::And,
        FunOp::Or,
        FunOp::Xor,
        FunOp::Eq,
        FunOp::Ne,
        FunOp::Lt,
        FunOp::Le,
        FunOp::Gt,
        FunOp::Ge,
        FunOp::Add,
        FunOp::Sub,
        FunOp::Mul,
        FunOp::Div,
        FunOp::Mod,
    ];
    let (op, rest) = choice_at(&functions, bytes)?;
    if !are_operands(signals, op, kind, &[]) {
        return Err(Stop::Broken(bytes.len()));
    }
    Ok((op, rest))
}

/// Whether the next operand of a function behind these may be of this kind.
fn may_follow(op: FunOp, before: &[Operand], tag: OperandTag) -> bool
    ensures { result ≡ may_follow op before.now tag }
{
    match tag {
        OperandTag::Signal => true,
        OperandTag::Constant => before.len() + 1 < operand_count(op) || has_signal(before),
    }
}

/// Whether a signal is among operands.
fn has_signal(operands: &[Operand]) -> bool
    ensures { result ≡ list_any is_signal operands.now }
{
    operands
        .iter()
        .any(|operand| matches!(operand, Operand::Sig(_)))
}

/// The kind of the next operand of a function behind these, and the bytes behind it.
fn tag_at<'a>(
    op: FunOp,
    before: &[Operand],
    bytes: &'a [u8],
) -> Result<(OperandTag, &'a [u8]), Stop>
    ensures { Gives (λ x. (x.0, x.1.now)) result (choice_if operand_tags (may_follow op before.now) bytes.now) }
{
    let (tag, rest) = choice_at(&[OperandTag::Signal, OperandTag::Constant], bytes)?;
    if !may_follow(op, before, tag) {
        return Err(Stop::Broken(bytes.len()));
    }
    Ok((tag, rest))
}

/// An operand of this kind, and the bytes behind it.
#[tactic(auto, unfolding(crate::specs::Fields::operand_from))]
fn operand_from(tag: OperandTag, bytes: &[u8]) -> Result<(Operand, &[u8]), Stop>
    ensures { Gives (λ x. (x.0, x.1.now)) result (operand_from tag bytes.now) }
{
    match tag {
        OperandTag::Signal => {
            let (x, rest) = number_at(bytes)?;
            Ok((Operand::Sig(SigId(x)), rest))
        }
        OperandTag::Constant => {
            let (constant, rest) = long_at(bytes)?;
            Ok((Operand::Const(constant), rest))
        }
    }
}

/// Adds an operand to those of a function, and gives the bytes behind it.
#[tactic(auto, unfolding(crate::specs::Fields::operand_at))]
fn add_operand<'a>(
    signals: &[ImageSignal],
    op: FunOp,
    kind: Option<Kind>,
    operands: &mut Vec<Operand>,
    bytes: &'a [u8],
) -> Result<&'a [u8], Stop>
    ensures { Gives (λ rest. (operands.new.items, rest.now)) result
        (added operands.old.items (operand_at signals.now op kind operands.old.items bytes.now)) }
{
    let (tag, rest) = tag_at(op, operands, bytes)?;
    let (operand, after) = operand_from(tag, rest)?;
    operands.push(operand)?;
    if !are_operands(signals, op, kind, operands) {
        return Err(Stop::Broken(rest.len()));
    }
    Ok(after)
}

/// The operands of a function, and the bytes behind them.
fn operands_at<'a>(
    alloc: Global,
    signals: &[ImageSignal],
    op: FunOp,
    kind: Option<Kind>,
    bytes: &'a [u8],
) -> Result<(Vec<Operand>, &'a [u8]), Stop>
    ensures { Gives (λ x. (x.0.items, x.1.now)) result
        (several (operand_at signals.now op kind) (operand_count op) [] bytes.now) }
{
    let mut operands = Vec::new(alloc);
    let mut rest = bytes;
    for _ in 0..operand_count(op) {
        rest = add_operand(signals, op, kind, &mut operands, rest)?;
    }
    Ok((operands, rest))
}

/// The fields of a function behind its target, and the bytes behind them.
#[tactic(auto, unfolding(crate::specs::Fields::function_at))]
pub fn function_at<'a>(
    alloc: Global,
    signals: &[ImageSignal],
    y: u32,
    bytes: &'a [u8],
) -> Result<(ImageOpKind, &'a [u8]), Stop>
    ensures { Gives (λ x. (x.0, x.1.now)) result (function_at signals.now y bytes.now) }
{
    let kind = kind_at(signals, y);
    let (op, rest) = op_at(signals, kind, bytes)?;
    let (count, after) = text_at(1, rest)?;
    if count[0] as usize != operand_count(op) {
        return Err(Stop::Broken(rest.len()));
    }
    let (operands, after) = operands_at(alloc, signals, op, kind, after)?;
    Ok((
        ImageOpKind::Fun(SigId(y), op, Operands::from(operands)),
        after,
    ))
}
