//! The operations of an image, from those of a plan.

ghost use Rattle.std.specs.Prelude.{◌≡◌};
ghost use Rattle.sig_file.specs.Prelude.{ℕ, IfOk, slice_get};
ghost use Rattle.sig_file.specs.PlanImages.{does_of, equation_at, equation_numbered, image_op, is_delay, memory_number, op_with, read_at};
ghost use Rattle.sig_plan.specs.declared.op.OpKind.TheVariants.{Compute, Left, Right, DelayRead, Store};

use crate::images::{ImageOp, ImageOpKind};
use sig_base::{EqId, SigId, Signal};
use sig_kernel::{Equation, Form, FunOp, Kernel, Operand, Operands};
use sig_plan::{Op, OpKind};
use std::alloc::{AllocError, Global};

/// Whether an equation is a delay.
fn is_delay(form: &Form) -> bool
    ensures { result ≡ is_delay form.now }
{
    matches!(form, Form::Delay(_, _, _))
}

/// How many delays stand before the equation of a number: that of its memory, if it is one.
fn memory_number(equations: &[Equation], number: EqId) -> u32
    ensures { result ≡ memory_number equations.now number.0 }
{
    let count = equations.len().min(number.0 as usize);
    let before = &equations[..count];
    before
        .iter()
        .filter(|equation| is_delay(&equation.form))
        .count() as u32
}

/// A function with its operands, copied.
fn function_of(
    alloc: Global,
    y: SigId,
    op: FunOp,
    operands: &[Operand],
) -> Result<ImageOpKind, AllocError>
    ensures { IfOk result (λ kind. kind ≡ ImageOpKind.Fun y op operands.now) }
{
    let operands = Operands::from(Vec::from_slice(alloc, operands)?);
    Ok(ImageOpKind::Fun(y, op, operands))
}

/// What an operation that computes a signal does.
fn computed(alloc: Global, form: &Form) -> Result<Option<ImageOpKind>, AllocError>
    ensures { (m : ℕ) → IfOk result (λ does. does ≡ does_of m Compute form.now) }
{
    Ok(match form {
        Form::Fun(y, op, operands) => Some(function_of(alloc, *y, *op, operands.as_slice())?),
        Form::When(y, x, _) => Some(ImageOpKind::Copy(*y, *x)),
        Form::WhenConst(y, value, _) => Some(ImageOpKind::Const(*y, *value)),
        Form::Event(y, _) => Some(ImageOpKind::Const(*y, 1)),
        _ => None,
    })
}

/// What the left operation of a default does.
fn left(form: &Form) -> Option<ImageOpKind>
    ensures { (m : ℕ) → result ≡ does_of m Left form.now }
{
    match form {
        Form::Default(y, u, _) => Some(ImageOpKind::Copy(*y, *u)),
        _ => None,
    }
}

/// What the right operation of a default does.
fn right(form: &Form) -> Option<ImageOpKind>
    ensures { (m : ℕ) → result ≡ does_of m Right form.now }
{
    match form {
        Form::Default(y, _, v) => Some(ImageOpKind::Copy(*y, *v)),
        _ => None,
    }
}

/// What the operation does that reads this memory.
fn delay_read(memory: u32, form: &Form) -> Option<ImageOpKind>
    ensures { result ≡ does_of memory DelayRead form.now }
{
    match form {
        Form::Delay(y, _, _) => Some(ImageOpKind::DelayRead(*y, memory)),
        _ => None,
    }
}

/// What the operation does that stores into this memory.
fn store(memory: u32, form: &Form) -> Option<ImageOpKind>
    ensures { (number : EqId) → result ≡ does_of memory (Store number) form.now }
{
    match form {
        Form::Delay(_, x, _) => Some(ImageOpKind::Store(memory, *x)),
        _ => None,
    }
}

/// What an operation of an equation does, whose memory, if it has one, has this number.
fn does_of(
    alloc: Global,
    memory: u32,
    kind: OpKind,
    form: &Form,
) -> Result<Option<ImageOpKind>, AllocError>
    ensures { IfOk result (λ does. does ≡ does_of memory kind form.now) }
{
    match kind {
        OpKind::Read(_) => Ok(None),
        OpKind::Compute => computed(alloc, form),
        OpKind::Left => Ok(left(form)),
        OpKind::Right => Ok(right(form)),
        OpKind::DelayRead => Ok(delay_read(memory, form)),
        OpKind::Store(_) => Ok(store(memory, form)),
    }
}

/// The operation that reads an input.
fn read_of(signals: &[Signal], guard: u32, x: SigId) -> Option<ImageOp>
    ensures { result ≡ read_at guard x (slice_get signals.now x.0) }
{
    match signals.get(x.0 as usize) {
        Some(signal) => Some(ImageOp {
            kind: ImageOpKind::Read(x),
            guard,
            at: signal.at,
        }),
        None => None,
    }
}

/// An operation of an equation.
fn equation_op(
    alloc: Global,
    equations: &[Equation],
    guard: u32,
    kind: OpKind,
    number: EqId,
) -> Result<Option<ImageOp>, AllocError>
    ensures { IfOk result (λ op. op ≡ equation_at guard (memory_number equations.now number.0) kind (slice_get equations.now number.0)) }
{
    let Some(equation) = equations.get(number.0 as usize) else {
        return Ok(None);
    };
    let memory = memory_number(equations, number);
    match does_of(alloc, memory, kind, &equation.form)? {
        Some(kind) => Ok(Some(ImageOp {
            kind,
            guard,
            at: equation.at,
        })),
        None => Ok(None),
    }
}

/// An operation of a plan under this guard, as one of its image.
pub fn image_op(
    alloc: Global,
    kernel: &Kernel,
    guard: u32,
    op: &Op,
) -> Result<Option<ImageOp>, AllocError>
    ensures { IfOk result (λ made. made ≡ image_op kernel.now guard op.now.kind op.now.eq) }
{
    if let OpKind::Read(x) = op.kind {
        return Ok(read_of(kernel.signals.as_slice(), guard, x));
    }
    match op.eq {
        Some(number) => equation_op(alloc, kernel.equations.as_slice(), guard, op.kind, number),
        None => Ok(None),
    }
}
