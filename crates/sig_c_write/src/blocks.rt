//! The operations, in a block for each longest run of neighbours with one guard.

ghost use Rattle.std.specs.Prelude.{All, ◌≡◌, ◌≢◌, ◌<◌, ◌≤◌, ◌+◌, ◌^◌, ◌++◌, Err, IfOk, OnOk, codes, length, false, nat_eq};
ghost use Rattle.sig_c.specs.Written.{name_at};
ghost use Rattle.sig_c_step.specs.Translation.{guard_of, is_left_out};
ghost use Rattle.sig_c_write.specs.Given.{scope_in};
ghost use Rattle.sig_c_write.specs.declared.limits.TheConstants.{TEXT_BYTES};
ghost use Rattle.sig_c_write.specs.inner.Blocks.{after, beginning, block_closing, block_opening, done_bytes, margin_of, next_after, next_bytes, note_bytes, op_bytes, ops_bytes, turn};
ghost use Rattle.sig_c_write.specs.inner.GuardBytes.{guard_bytes};

use crate::answer::WriteAnswer;
use crate::ends::ends_of;
use crate::guards::put_guard;
use crate::names::StepNames;
use crate::operations::put_operation;
use crate::pieces::put_name;
use sig_base::Text;
use sig_file::{Image, ImageOp};
use std::alloc::AllocError;

/// What begins a line under a guard.
#[tactic(auto, using(crate::proofs::BlockGuards::margin_other))]
fn margin_of(guard: u32) -> &'static [u8]
    ensures { result.now ≡ margin_of guard }
{
    if guard == 1 { b"    " } else { b"        " }
}

/// Appends the comment of a number.
fn put_note(text: &mut Vec<u8>, notes: &[Text], n: usize) -> Result<(), AllocError>
    ensures { OnOk result (text.new.items ≡ text.old.items ++ note_bytes (name_at notes.now n)) }
{
    text.extend_from_slice(b"/* ")?;
    put_name(text, notes, n)?;
    text.extend_from_slice(b" */\n")
}

/// Appends an operation, behind its comment.
fn put_op(
    text: &mut Vec<u8>,
    image: &Image,
    names: &StepNames,
    notes: &[Text],
    n: usize,
    code: u64,
    op: &ImageOp,
) -> Result<(), AllocError>
    requires { code < 2 ^ 32 }
    ensures { OnOk result (text.new.items ≡ text.old.items ++ op_bytes image.now (scope_in names.now) code op.now (name_at notes.now n)) }
{
    let margin = margin_of(op.guard);
    text.extend_from_slice(margin)?;
    put_note(text, notes, n)?;
    put_operation(text, margin, image, names, code, &op.kind)
}

/// Appends what ends a block.
#[tactic(auto, using(crate::proofs::BlockGuards::closing_other))]
fn put_closing(text: &mut Vec<u8>, guard: u32) -> Result<(), AllocError>
    ensures { OnOk result (text.new.items ≡ text.old.items ++ block_closing guard) }
{
    if guard == 1 {
        Ok(())
    } else {
        text.extend_from_slice(b"    }\n")
    }
}

/// Appends what begins a block under the guard of a node.
fn put_opening(
    text: &mut Vec<u8>,
    image: &Image,
    names: &StepNames,
    guard: u32,
) -> Result<(), WriteAnswer>
    requires node { 2 ≤ guard }
    requires there { guard < length image.now.nodes + 2 }
    ensures text { OnOk result (text.new.items ≡ text.old.items ++ block_opening image.now (scope_in names.now) guard) }
    ensures long { result ≡ Err WriteAnswer.TooLong → TEXT_BYTES < length text.old.items + length (block_opening image.now (scope_in names.now) guard) }
{
    text.extend_from_slice(b"    if (")?;
    put_guard(text, image, names, guard, false)?;
    text.extend_from_slice(b") {\n")?;
    Ok(())
}

/// Appends what begins a block, of which one under the guard that is always true has nothing.
fn put_beginning(
    text: &mut Vec<u8>,
    image: &Image,
    names: &StepNames,
    guard: u32,
) -> Result<(), WriteAnswer>
    requires node { 1 ≤ guard }
    requires there { guard < length image.now.nodes + 2 }
    ensures text { OnOk result (text.new.items ≡ text.old.items ++ block_opening image.now (scope_in names.now) guard) }
    ensures long { result ≡ Err WriteAnswer.TooLong → TEXT_BYTES < length text.old.items + length (block_opening image.now (scope_in names.now) guard) }
{
    if guard == 1 {
        Ok(())
    } else {
        put_opening(text, image, names, guard)
    }
}

/// Appends what ends one block and begins another one.
fn put_change(
    text: &mut Vec<u8>,
    image: &Image,
    names: &StepNames,
    last: u32,
    guard: u32,
) -> Result<(), WriteAnswer>
    requires node { 1 ≤ guard }
    requires there { guard < length image.now.nodes + 2 }
    ensures text { OnOk result (text.new.items ≡ text.old.items ++ turn image.now (scope_in names.now) false last guard) }
    ensures long { result ≡ Err WriteAnswer.TooLong → TEXT_BYTES < length text.old.items + length (turn image.now (scope_in names.now) false last guard) }
{
    put_closing(text, last)?;
    put_beginning(text, image, names, guard)?;
    Ok(())
}

/// Appends what stands between operations of two guards.
fn put_turn(
    text: &mut Vec<u8>,
    image: &Image,
    names: &StepNames,
    last: u32,
    guard: u32,
) -> Result<(), WriteAnswer>
    requires node { 1 ≤ guard }
    requires there { guard < length image.now.nodes + 2 }
    ensures text { OnOk result (text.new.items ≡ text.old.items ++ turn image.now (scope_in names.now) (nat_eq guard last) last guard) }
    ensures long { result ≡ Err WriteAnswer.TooLong → TEXT_BYTES < length text.old.items + length (turn image.now (scope_in names.now) (nat_eq guard last) last guard) }
{
    if is_same(guard, last) {
        Ok(())
    } else {
        put_change(text, image, names, last, guard)
    }
}

/// Whether two numbers are equal.
fn is_same(a: u32, b: u32) -> bool
    ensures { result ≡ nat_eq a b }
{
    a == b
}

/// How far the operations are written: the guard of the block, the number of the next end, and that of the next comment.
#[derive(Clone, Copy)]
pub struct Reached {
    pub guard: u32,
    pub code: u64,
    pub note: usize,
}

/// Appends an operation that is not left out.
fn put_done(
    text: &mut Vec<u8>,
    image: &Image,
    names: &StepNames,
    notes: &[Text],
    reached: Reached,
    op: &ImageOp,
) -> Result<Reached, WriteAnswer>
    requires node { 1 ≤ op.now.guard }
    requires there { op.now.guard < length image.now.nodes + 2 }
    requires code { reached.code < 2 ^ 31 }
    requires note { reached.note < 2 ^ 31 }
    ensures text { OnOk result (text.new.items ≡ text.old.items ++ done_bytes image.now (scope_in names.now) notes.now reached op.now) }
    ensures reached { IfOk result (λ next. next ≡ after reached op.now) }
    ensures code { IfOk result (λ next. next.code ≤ reached.code + 2) }
    ensures note { IfOk result (λ next. next.note ≤ reached.note + 1) }
    ensures long { result ≡ Err WriteAnswer.TooLong → TEXT_BYTES < length text.old.items + length (done_bytes image.now (scope_in names.now) notes.now reached op.now) }
{
    put_turn(text, image, names, reached.guard, op.guard)?;
    put_op(text, image, names, notes, reached.note, reached.code, op)?;
    Ok(Reached {
        guard: op.guard,
        code: reached.code + ends_of(&op.kind),
        note: reached.note + 1,
    })
}

/// Appends an operation, unless it is left out.
fn put_next(
    text: &mut Vec<u8>,
    image: &Image,
    names: &StepNames,
    notes: &[Text],
    reached: Reached,
    op: &ImageOp,
) -> Result<Reached, WriteAnswer>
    requires there { op.now.guard < length image.now.nodes + 2 }
    requires code { reached.code < 2 ^ 31 }
    requires note { reached.note < 2 ^ 31 }
    ensures text { OnOk result (text.new.items ≡ text.old.items ++ next_bytes image.now (scope_in names.now) notes.now reached op.now) }
    ensures reached { IfOk result (λ next. next ≡ next_after reached op.now) }
    ensures code { IfOk result (λ next. next.code ≤ reached.code + 2) }
    ensures note { IfOk result (λ next. next.note ≤ reached.note + 1) }
    ensures long { result ≡ Err WriteAnswer.TooLong → TEXT_BYTES < length text.old.items + length (next_bytes image.now (scope_in names.now) notes.now reached op.now) }
{
    if is_left_out(op) {
        Ok(reached)
    } else {
        put_done(text, image, names, notes, reached, op)
    }
}

/// Whether an operation is left out.
fn is_left_out(op: &ImageOp) -> bool
    ensures { result ≡ is_left_out op.now }
{
    op.guard == 0
}

/// Appends operations, the first of which stands where no block has begun.
pub(crate) fn put_ops(
    text: &mut Vec<u8>,
    image: &Image,
    names: &StepNames,
    notes: &[Text],
    ops: &[ImageOp],
) -> Result<(), WriteAnswer>
    requires there { All (λ op. op.guard < length image.now.nodes + 2) ops.now }
    requires few { length ops.now ≤ 4096 }
    ensures text { OnOk result (text.new.items ≡ text.old.items ++ ops_bytes image.now (scope_in names.now) notes.now beginning ops.now) }
    ensures long { result ≡ Err WriteAnswer.TooLong → TEXT_BYTES < length text.old.items + length (ops_bytes image.now (scope_in names.now) notes.now beginning ops.now) }
{
    let mut reached = Reached {
        guard: 1,
        code: 1,
        note: 0,
    };
    for op in ops {
        reached = put_next(text, image, names, notes, reached, op)?;
    }
    put_closing(text, reached.guard)?;
    Ok(())
}
