//! The image of a plan.

ghost use Rattle.sig_file.specs.Prelude.{ℕ, Err, IfOk, OnOk, flat_map, length};
ghost use Rattle.std.specs.Prelude.{◌≡◌, ◌+◌, ◌-◌, ◌^◌, ◌<◌, ◌≤◌, min};
ghost use Rattle.sig_file.specs.Bytes.{field_bytes, image_bytes, op_bytes, operand_bytes, signal_bytes};
ghost use Rattle.sig_file.specs.Images.{IsImage};
ghost use Rattle.sig_file.specs.inner.Parts.{view_of};
ghost use Rattle.sig_file.specs.PlanImages.{image_of};
ghost use Rattle.sig_file.specs.Spelled.{HasNames, HavePlaces};
ghost use Rattle.sig_file.specs.declared.limits.TheConstants.{IMAGE_BYTES};

use crate::answer::FileAnswer;
use crate::image_parts::parts_of;
use crate::images::{Image, ImageOp, ImageOpKind, ImageSignal};
use crate::laws_plans::images_of_plans_are_right;
use crate::limits::IMAGE_BYTES;
use crate::read::Parts;
use sig_base::Span;
use sig_kernel::Operand;
use sig_plan::Plan;
use std::alloc::Global;

/// How many bytes signals have, as far as a number can tell.
fn signals_len(signals: &[ImageSignal]) -> usize
    ensures { result ≡ min (length (flat_map signal_bytes signals.now)) (2 ^ 64 - 1) }
{
    let mut len: usize = 0;
    for signal in signals {
        len = len.saturating_add(5).saturating_add(signal.name.len());
    }
    len
}

/// How many bytes an operand has.
fn operand_len(operand: Operand) -> usize
    ensures { result ≡ length (operand_bytes operand) }
{
    match operand {
        Operand::Sig(_) => 5,
        Operand::Const(_) => 9,
    }
}

/// How many bytes operands have, as far as a number can tell.
fn operands_len(operands: &[Operand]) -> usize
    ensures { result ≡ min (length (flat_map operand_bytes operands.now)) (2 ^ 64 - 1) }
{
    let mut len: usize = 0;
    for operand in operands {
        len = len.saturating_add(operand_len(*operand));
    }
    len
}

/// How many bytes the fields of an operation have behind its place, as far as a number can tell.
fn fields_len(kind: &ImageOpKind) -> usize
    ensures { result ≡ min (length (field_bytes kind.now)) (2 ^ 64 - 1) }
{
    match kind {
        ImageOpKind::Read(_) => 4,
        ImageOpKind::Fun(_, _, operands) => operands_len(operands.as_slice()).saturating_add(6),
        ImageOpKind::Copy(_, _) => 8,
        ImageOpKind::Const(_, _) => 12,
        ImageOpKind::DelayRead(_, _) => 8,
        ImageOpKind::Store(_, _) => 8,
    }
}

/// How many bytes operations have, as far as a number can tell.
fn ops_len(ops: &[ImageOp]) -> usize
    ensures { result ≡ min (length (flat_map op_bytes ops.now)) (2 ^ 64 - 1) }
{
    let mut len: usize = 0;
    for op in ops {
        len = len.saturating_add(13).saturating_add(fields_len(&op.kind));
    }
    len
}

/// How many bytes an image of these parts has, as far as a number can tell.
fn len_of(parts: &Parts) -> usize
    ensures { result ≡ min (length (image_bytes (view_of parts.now))) (2 ^ 64 - 1) }
{
    signals_len(&parts.signals)
        .saturating_add(36)
        .saturating_add(parts.conditions.len().saturating_mul(4))
        .saturating_add(parts.memories.len().saturating_mul(9))
        .saturating_add(parts.nodes.len().saturating_mul(12))
        .saturating_add(ops_len(&parts.ops))
}

/// A place has 32 bits for its line, and for its column.
fn place_fits(at: Span)
    ensures line { at.line < 2 ^ 32 }
    ensures col { at.col < 2 ^ 32 }
{}

/// The places of operations have 32 bits for their lines, and for their columns.
fn places_fit(ops: &[ImageOp])
    ensures { HavePlaces ops.now }
{
    for op in ops {
        place_fits(op.at);
    }
}

/// The parts of the image of a plan are right, where they are short enough.
fn are_right(plan: &Plan, parts: &Parts)
    requires names { HasNames plan.now.kernel }
    requires parts { view_of parts.now ≡ image_of plan.now }
    requires short { length (image_bytes (image_of plan.now)) ≤ IMAGE_BYTES }
    ensures { IsImage (view_of parts.now) }
{
    // What holds of every plan is known where its fields are read.
    let _kernel = &plan.kernel;
    places_fit(&parts.ops);
    images_of_plans_are_right();
}

/// The image of a plan: its operations in compiled order, its nodes numbered by the first visit of the
/// guards in that order, and its memories those of the delays in the order of the equations. It is too
/// long exactly where it would have more than `IMAGE_BYTES` bytes; only memory can be wanting besides.
pub fn image(alloc: Global, plan: &Plan) -> Result<Image, FileAnswer>
    // The name of each signal has the length and the bytes that an image asks for.
    requires names { HasNames plan.now.kernel }

    // The image that is given is the plan's, it is right, and it is short enough.
    ensures image { IfOk result (λ image. image ≡ image_of plan.now) }
    ensures right { IfOk result IsImage }
    ensures short { OnOk result (length (image_bytes (image_of plan.now)) ≤ IMAGE_BYTES) }

    // The plan's image is refused as too long only where it is.
    ensures limit { (limit : ℕ) → result ≡ Err (FileAnswer.TooLong limit) → limit ≡ IMAGE_BYTES }
    ensures long { (limit : ℕ) → result ≡ Err (FileAnswer.TooLong limit) → IMAGE_BYTES < length (image_bytes (image_of plan.now)) }
{
    let parts = parts_of(alloc, plan)?;
    if len_of(&parts) > IMAGE_BYTES {
        return Err(FileAnswer::TooLong(IMAGE_BYTES));
    }
    are_right(plan, &parts);
    Ok(Image {
        signals: parts.signals,
        inputs: parts.inputs,
        outputs: parts.outputs,
        conditions: parts.conditions,
        memories: parts.memories,
        nodes: parts.nodes,
        ops: parts.ops,
    })
}
