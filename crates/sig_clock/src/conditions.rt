//! The conditions of a kernel.

ghost use Rattle.std.specs.Prelude.{◌≡◌, ◌<◌, ◌&&◌};
ghost use Rattle.sig_clock.specs.Prelude.{false, map, length, nat_lt, slice_index_or, IfOk, IfSome, OnOk, list_any, range_with_len, kind_at, IsValid};
ghost use Rattle.sig_clock.specs.Conditions.{AreFreeBy, added, conditions_of, freed, marked, signal_id};
ghost use Rattle.sig_clock.specs.Reactions.{compares, is_boolean_kind, is_integer};

use crate::answer::ClockBase;
use sig_base::{Kind, SigId, Signal};
use sig_kernel::{Equation, Form, FunOp, Kernel, Operand};
use std::alloc::{AllocError, Global};

/// The conditions of a kernel, by number: the boolean inputs, and the booleans that a comparison of
/// integers or a delay defines. Only memory can be wanting.
pub fn condition_set(alloc: Global, kernel: &Kernel) -> Result<Vec<SigId>, ClockBase>
    requires { IsValid kernel.now }
    ensures { IfOk result (λ conditions. conditions.items ≡ conditions_of kernel.now) }
{
    let free = free_signals(alloc, kernel)?;
    let signals = kernel.signals.as_slice();
    let mut conditions = Vec::new(alloc);
    for number in 0..signals.len() {
        let chosen = is_chosen(signals, free.as_slice(), number);
        add(&mut conditions, number as u32, chosen)?;
    }
    Ok(conditions)
}

/// Adds a signal, where it is chosen.
fn add(conditions: &mut Vec<SigId>, number: u32, chosen: bool) -> Result<(), AllocError>
    ensures { OnOk result (conditions.new.items ≡ added conditions.old.items number chosen) }
{
    if !chosen {
        return Ok(());
    }
    conditions.push(SigId(number))?;
    Ok(())
}

/// Whether the signal of this number is a boolean and free.
fn is_chosen(signals: &[Signal], free: &[bool], number: usize) -> bool
    requires { number < length free.now }
    ensures { result ≡ (is_boolean_kind (kind_at signals.now (signal_id number)) && slice_index_or free.now number false) }
{
    is_boolean(signals, number) && free[number]
}

/// Whether the signal of this number is a boolean.
fn is_boolean(signals: &[Signal], number: usize) -> bool
    ensures { result ≡ is_boolean_kind (kind_at signals.now (signal_id number)) }
{
    match signals.get(number) {
        Some(signal) => matches!(signal.kind, Kind::Boolean),
        None => false,
    }
}

/// Whether the truth of each signal is free: it is an input, or a comparison of integers or a delay
/// defines it.
fn free_signals(alloc: Global, kernel: &Kernel) -> Result<Vec<bool>, AllocError>
    requires { IsValid kernel.now }
    ensures { IfOk result (λ free. AreFreeBy kernel.now (length kernel.now.equations) free.items) }
{
    let signals = kernel.signals.as_slice();
    let mut free = are_inputs(alloc, signals.len(), kernel.inputs)?;
    for equation in kernel.equations.as_slice() {
        mark(&mut free, freed_by(signals, &equation.form));
    }
    Ok(free)
}

/// Marks a signal, where there is one.
fn mark(free: &mut [bool], signal: Option<SigId>)
    requires { IfSome signal (λ y. y.0 < length free.old) }
    ensures { free.new ≡ marked free.old signal }
{
    if let Some(y) = signal {
        free[y.0 as usize] = true;
    }
}

/// Which of so many signals are inputs.
fn are_inputs(alloc: Global, count: usize, inputs: u32) -> Result<Vec<bool>, AllocError>
    ensures { IfOk result (λ free. free.items ≡ map (λ number. nat_lt number inputs) (range_with_len 0 count)) }
{
    (0..count)
        .map(|number| number < inputs as usize)
        .collect(alloc)
}

/// The signal whose truth the form leaves free.
fn freed_by(signals: &[Signal], form: &Form) -> Option<SigId>
    ensures { result ≡ freed signals.now form.now }
{
    match form {
        Form::Delay(y, _, _) => Some(*y),
        Form::Fun(y, op, operands) if compares(signals, *op, operands.as_slice()) => Some(*y),
        _ => None,
    }
}

/// Whether the function compares integers.
fn compares(signals: &[Signal], op: FunOp, operands: &[Operand]) -> bool
    ensures { result ≡ compares signals.now op operands.now }
{
    match op {
        FunOp::Lt | FunOp::Le | FunOp::Gt | FunOp::Ge => true,
        FunOp::Eq => has_integer(signals, operands),
        FunOp::Ne => has_integer(signals, operands),
        _ => false,
    }
}

/// Whether a signal of integers is among the operands.
fn has_integer(signals: &[Signal], operands: &[Operand]) -> bool
    ensures { result ≡ list_any (is_integer signals.now) operands.now }
{
    operands.iter().any(|operand| is_integer(signals, *operand))
}

/// Whether an operand is a signal of integers.
fn is_integer(signals: &[Signal], operand: Operand) -> bool
    ensures { result ≡ is_integer signals.now operand }
{
    match operand {
        Operand::Sig(x) => match signals.get(x.0 as usize) {
            Some(signal) => matches!(signal.kind, Kind::Integer),
            None => false,
        },
        Operand::Const(_) => false,
    }
}
