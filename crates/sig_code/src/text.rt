//! The text of a plan's code.

ghost use Rattle.std.specs.Prelude.{◌≡◌, ◌++◌};
ghost use Rattle.sig_code.specs.Prelude.{IfOk, OnOk, decimal, slice_get, enumerate_from, flat_map};
ghost use Rattle.sig_code.specs.Texts.{act_text, actor_text, code_text_of, delayed_in, name_at, name_of, op_text, step_text, what_text};

use crate::answer::CodeAnswer;
use itoa::Buffer;
use sig_base::{EqId, OpId, SigId, Signal};
use sig_kernel::{Equation, Form, Kernel};
use sig_plan::{Code, Op, OpKind, Plan, Step, StepKind};
use std::alloc::{AllocError, Global};

/// The text of a plan's code: for each actor the line `actor K`, and for each of its steps a line with the
/// step's index, its position and what it does. Only memory can be wanting.
pub fn code_text(alloc: Global, plan: &Plan) -> Result<Vec<u8>, CodeAnswer>
    ensures { IfOk result (λ text. text.items ≡ code_text_of plan.now) }
{
    let mut text = Vec::new(alloc);
    put_actors(
        &mut text,
        &plan.kernel,
        plan.ops.as_slice(),
        plan.codes.as_slice(),
    )?;
    Ok(text)
}

/// Appends the lines of the actors with these codes.
pub(crate) fn put_actors(
    text: &mut Vec<u8>,
    kernel: &Kernel,
    ops: &[Op],
    codes: &[Code],
) -> Result<(), AllocError>
    ensures { OnOk result (text.new.items ≡ text.old.items ++ flat_map (actor_text kernel.now ops.now) (enumerate_from 0 codes.now)) }
{
    for (actor, code) in codes.iter().enumerate() {
        put_actor(text, kernel, ops, actor, code)?;
    }
    Ok(())
}

/// Appends the line of an actor and those of its steps.
fn put_actor(
    text: &mut Vec<u8>,
    kernel: &Kernel,
    ops: &[Op],
    actor: usize,
    code: &Code,
) -> Result<(), AllocError>
    ensures { OnOk result (text.new.items ≡ text.old.items ++ actor_text kernel.now ops.now (actor, code.now)) }
{
    text.extend_from_slice(b"actor ")?;
    put_number(text, actor as u64)?;
    text.push(b'\n')?;
    put_steps(text, kernel, ops, code.steps())
}

/// Appends the lines of steps.
fn put_steps(
    text: &mut Vec<u8>,
    kernel: &Kernel,
    ops: &[Op],
    steps: &[Step],
) -> Result<(), AllocError>
    ensures { OnOk result (text.new.items ≡ text.old.items ++ flat_map (step_text kernel.now ops.now) (enumerate_from 0 steps.now)) }
{
    for (index, step) in steps.iter().enumerate() {
        put_step(text, kernel, ops, index, *step)?;
    }
    Ok(())
}

/// Appends the line of a step with its index.
fn put_step(
    text: &mut Vec<u8>,
    kernel: &Kernel,
    ops: &[Op],
    index: usize,
    step: Step,
) -> Result<(), AllocError>
    ensures { OnOk result (text.new.items ≡ text.old.items ++ step_text kernel.now ops.now (index, step)) }
{
    put_number(text, index as u64)?;
    text.push(b' ')?;
    put_number(text, u64::from(step.pos))?;
    text.push(b' ')?;
    put_what(text, kernel, ops, step.kind)?;
    text.push(b'\n')?;
    Ok(())
}

/// Appends what a step does.
fn put_what(
    text: &mut Vec<u8>,
    kernel: &Kernel,
    ops: &[Op],
    kind: StepKind,
) -> Result<(), AllocError>
    ensures { OnOk result (text.new.items ≡ text.old.items ++ what_text kernel.now ops.now kind) }
{
    match kind {
        StepKind::Do(op) => put_op(text, kernel, ops, op),
        StepKind::Send(link) => put_numbered(text, b"send ", link),
        StepKind::Receive(link) => put_numbered(text, b"receive ", link),
        StepKind::Report(link) => put_numbered(text, b"report ", link),
        StepKind::Collect(link) => put_numbered(text, b"collect ", link),
        StepKind::Commit => text.extend_from_slice(b"commit"),
    }
}

/// Appends a word and the number of a link.
fn put_numbered(text: &mut Vec<u8>, word: &[u8], link: u32) -> Result<(), AllocError>
    ensures { OnOk result (text.new.items ≡ text.old.items ++ (word.now ++ decimal link)) }
{
    text.extend_from_slice(word)?;
    put_number(text, u64::from(link))
}

/// Appends what the operation of this number does.
fn put_op(text: &mut Vec<u8>, kernel: &Kernel, ops: &[Op], number: OpId) -> Result<(), AllocError>
    ensures { OnOk result (text.new.items ≡ text.old.items ++ op_text kernel.now (slice_get ops.now number.0)) }
{
    match ops.get(number.0 as usize) {
        Some(op) => put_act(text, kernel, op.kind, op.writes),
        None => Ok(()),
    }
}

/// Appends what an operation does to the signal that it writes, or to the one whose delay it serves.
fn put_act(
    text: &mut Vec<u8>,
    kernel: &Kernel,
    kind: OpKind,
    writes: Option<SigId>,
) -> Result<(), AllocError>
    ensures { OnOk result (text.new.items ≡ text.old.items ++ act_text kernel.now kind writes) }
{
    let signals = kernel.signals.as_slice();
    match kind {
        OpKind::Read(_) => put_named(text, b"read ", signals, writes),
        OpKind::Compute => put_named(text, b"compute ", signals, writes),
        OpKind::Left => put_named(text, b"left ", signals, writes),
        OpKind::Right => put_named(text, b"right ", signals, writes),
        OpKind::DelayRead => put_named(text, b"delay ", signals, writes),
        OpKind::Store(number) => {
            let delayed = delayed_in(kernel.equations.as_slice(), number);
            put_named(text, b"store ", signals, delayed)
        }
    }
}

/// The signal that the delay of this number defines.
fn delayed_in(equations: &[Equation], number: EqId) -> Option<SigId>
    ensures { result ≡ delayed_in (slice_get equations.now number.0) }
{
    match &equations.get(number.0 as usize)?.form {
        Form::Delay(y, _, _) => Some(*y),
        _ => None,
    }
}

/// Appends a word and the name of a signal.
fn put_named(
    text: &mut Vec<u8>,
    word: &[u8],
    signals: &[Signal],
    x: Option<SigId>,
) -> Result<(), AllocError>
    ensures { OnOk result (text.new.items ≡ text.old.items ++ (word.now ++ name_at signals.now x)) }
{
    text.extend_from_slice(word)?;
    match x {
        Some(x) => put_name(text, signals, x),
        None => Ok(()),
    }
}

/// Appends the name of a signal.
fn put_name(text: &mut Vec<u8>, signals: &[Signal], x: SigId) -> Result<(), AllocError>
    ensures { OnOk result (text.new.items ≡ text.old.items ++ name_of (slice_get signals.now x.0)) }
{
    match signals.get(x.0 as usize) {
        Some(signal) => text.extend_from_slice(signal.name.as_bytes()),
        None => Ok(()),
    }
}

/// Appends a number in decimal.
fn put_number(text: &mut Vec<u8>, number: u64) -> Result<(), AllocError>
    ensures { OnOk result (text.new.items ≡ text.old.items ++ decimal number) }
{
    let mut buffer = Buffer::new();
    text.extend_from_slice(buffer.format(number).as_bytes())
}
