//! The operations of a kernel.

ghost use Rattle.std.specs.Prelude.{◌≡◌, ◌*◌, ◌^◌, ◌<◌, ◌≤◌, ◌++◌, ◌∷◌};
ghost use Rattle.sig_plan.specs.Prelude.{[], IfErr, IfOk, OnOk, length, map, true, AllPass, range_with_len, AreClocks, signal_id, IsStore, Keeps, IsValid, form_within};
ghost use Rattle.sig_plan.specs.inner.Making.{Adds, AreHeld, Extends, HaveGuards, HoldGuards, Spends};
ghost use Rattle.sig_plan.specs.Operations.{AreOperations, default_of, of_each, read_of, stores_of, writes_of};
ghost use Rattle.sig_plan.specs.Shares.{KeepsToShare, share_of};

use crate::answer::PlanAnswer;
use crate::op::{Op, OpKind};
use crate::source::{Source, without};
use sig_base::{EqId, SigId};
use sig_clock::Clocks;
use sig_dd::Store;
use sig_kernel::{Equation, Form, Kernel};
use std::alloc::{AllocError, Global};

/// The operations of a kernel: those of the inputs, then those of the equations but the stores, then
/// the stores. The guards of the right operands of `Default`s, which are taken where the left ones are
/// absent, are made in the store; older references stay. Budget comes only where the store is full and its
/// nodes before the call, with the share of two allowances for each equation, are above the number that it
/// was made for. Want of memory is the other refusal.
pub fn operations(
    alloc: Global,
    kernel: &Kernel,
    clocks: &Clocks,
    store: &mut Store,
) -> Result<Vec<Op>, PlanAnswer>
    requires valid { IsValid kernel.now }
    requires clocks { AreClocks kernel.now store.old.nodes clocks.now }
    ensures store { IsStore store.new }
    ensures kept { Keeps store.old store.new }
    ensures clocks { AreClocks kernel.now store.new.nodes clocks.now }
    ensures operations { IfOk result (λ ops. AreOperations kernel.now store.new.nodes clocks.now ops.items) }
    ensures share { KeepsToShare (share_of kernel.now clocks.now.conditions) store.old store.new result }
{
    let source = Source {
        alloc,
        signals: kernel.signals.as_slice(),
        clocks,
    };
    let equations = kernel.equations.as_slice();
    // What holds of every store is known where its fields are read.
    let _nodes = store.len();
    let mut ops = Vec::new(alloc);
    add_reads(&source, kernel.inputs, &mut ops)?;
    add_writes(&source, equations, store, &mut ops)?;
    add_stores(&source, equations, &mut ops)?;
    Ok(ops)
}

/// Adds the operations of so many inputs.
fn add_reads(source: &Source, inputs: u32, ops: &mut Vec<Op>) -> Result<(), AllocError>
    requires inputs { inputs ≤ length source.now.signals.now }
    requires guards { HaveGuards source.now.clocks.now (length source.now.signals.now) }
    ensures { OnOk result (Adds source.now.clocks.now (λ presence.
        map (λ number. read_of source.now.signals.now presence (signal_id number)) (range_with_len 0 inputs)) ops.old.items ops.new.items) }
{
    for number in 0..inputs {
        ops.push(source.read(SigId(number)))?;
    }
    Ok(())
}

/// Adds the operations that write what the equations define.
fn add_writes(
    source: &Source,
    equations: &[Equation],
    store: &mut Store,
    ops: &mut Vec<Op>,
) -> Result<(), PlanAnswer>
    requires few { length equations.now < 2 ^ 32 }
    requires within { AllPass (λ equation. form_within (length source.now.signals.now) equation.form) equations.now }
    requires guards { HaveGuards source.now.clocks.now (length source.now.signals.now) }
    requires store { IsStore store.old }
    requires held { HoldGuards store.old.nodes source.now.clocks.now }
    requires ops { AreHeld store.old.nodes ops.old.items }
    ensures spends { Spends (2 * length equations.now) source.now.clocks.now store.old store.new result }
    ensures adds { OnOk result (Extends store.old.nodes store.new.nodes source.now.clocks.now (λ presence.
        of_each (writes_of source.now.signals.now presence) 0 equations.now) ops.old.items ops.new.items) }
{
    for (number, equation) in equations.iter().enumerate() {
        add_writes_of(source, EqId(number as u32), &equation.form, store, ops)?;
    }
    Ok(())
}

/// Adds the operations that write what an equation of this form defines.
fn add_writes_of(
    source: &Source,
    number: EqId,
    form: &Form,
    store: &mut Store,
    ops: &mut Vec<Op>,
) -> Result<(), PlanAnswer>
    requires within { form_within (length source.now.signals.now) form.now ≡ true }
    requires guards { HaveGuards source.now.clocks.now (length source.now.signals.now) }
    requires store { IsStore store.old }
    requires held { HoldGuards store.old.nodes source.now.clocks.now }
    requires ops { AreHeld store.old.nodes ops.old.items }
    ensures spends { Spends 2 source.now.clocks.now store.old store.new result }
    ensures adds { OnOk result (Extends store.old.nodes store.new.nodes source.now.clocks.now (λ presence.
        writes_of source.now.signals.now presence number form.now) ops.old.items ops.new.items) }
{
    match form {
        Form::Default(y, u, v) => add_default(source, number, *y, *u, *v, store, ops),
        Form::Fun(y, _, operands) => {
            let reads = source.signals_of(operands.as_slice())?;
            add(ops, source.writing(number, OpKind::Compute, *y, reads))
        }
        Form::When(y, x, _) => {
            let reads = source.one(*x)?;
            add(ops, source.writing(number, OpKind::Compute, *y, reads))
        }
        Form::WhenConst(y, _, _) | Form::Event(y, _) => {
            add(
                ops,
                source.writing(number, OpKind::Compute, *y, source.none()),
            )
        }
        Form::Delay(y, _, _) => {
            add(
                ops,
                source.writing(number, OpKind::DelayRead, *y, source.none()),
            )
        }
        Form::Sync(_, _) => Ok(()),
    }
}

/// Adds an operation.
fn add(ops: &mut Vec<Op>, op: Op) -> Result<(), PlanAnswer>
    ensures added { OnOk result (ops.new.items ≡ ops.old.items ++ op ∷ []) }
    ensures refused { IfErr result (λ answer. answer ≡ PlanAnswer.OutOfMemory) }
{
    ops.push(op)?;
    Ok(())
}

/// Adds the operations of `y := u default v`.
fn add_default(
    source: &Source,
    number: EqId,
    y: SigId,
    u: SigId,
    v: SigId,
    store: &mut Store,
    ops: &mut Vec<Op>,
) -> Result<(), PlanAnswer>
    requires u { u.0 < length source.now.signals.now }
    requires v { v.0 < length source.now.signals.now }
    requires guards { HaveGuards source.now.clocks.now (length source.now.signals.now) }
    requires store { IsStore store.old }
    requires held { HoldGuards store.old.nodes source.now.clocks.now }
    requires ops { AreHeld store.old.nodes ops.old.items }
    ensures spends { Spends 2 source.now.clocks.now store.old store.new result }
    ensures adds { OnOk result (Extends store.old.nodes store.new.nodes source.now.clocks.now (λ presence.
        default_of source.now.signals.now presence number y u v) ops.old.items ops.new.items) }
{
    let left = source.one(u)?;
    let right = source.one(v)?;
    let guard = source.guard(u);
    let other = without(store, source.guard(v), guard)?;
    add(ops, source.taking(number, OpKind::Left, guard, y, left))?;
    add(ops, source.taking(number, OpKind::Right, other, y, right))
}

/// Adds the stores into the memories of delays.
fn add_stores(source: &Source, equations: &[Equation], ops: &mut Vec<Op>) -> Result<(), AllocError>
    requires few { length equations.now < 2 ^ 32 }
    requires within { AllPass (λ equation. form_within (length source.now.signals.now) equation.form) equations.now }
    requires guards { HaveGuards source.now.clocks.now (length source.now.signals.now) }
    ensures { OnOk result (Adds source.now.clocks.now (λ presence.
        of_each (stores_of source.now.signals.now presence) 0 equations.now) ops.old.items ops.new.items) }
{
    for (number, equation) in equations.iter().enumerate() {
        add_store_of(source, EqId(number as u32), &equation.form, ops)?;
    }
    Ok(())
}

/// Adds the store of a delay.
fn add_store_of(
    source: &Source,
    number: EqId,
    form: &Form,
    ops: &mut Vec<Op>,
) -> Result<(), AllocError>
    requires within { form_within (length source.now.signals.now) form.now ≡ true }
    requires guards { HaveGuards source.now.clocks.now (length source.now.signals.now) }
    ensures { OnOk result (Adds source.now.clocks.now (λ presence.
        stores_of source.now.signals.now presence number form.now) ops.old.items ops.new.items) }
{
    match form {
        Form::Delay(y, x, _) => {
            let reads = source.one(*x)?;
            ops.push(source.storing(number, *y, *x, reads))?;
            Ok(())
        }
        _ => Ok(()),
    }
}
