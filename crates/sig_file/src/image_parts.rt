//! The parts of the image of a plan.

ghost use Rattle.sig_file.specs.Prelude.{ℕ, List, [], Err, IfOk, OnOk, Integer, diagram, length, map};
ghost use Rattle.std.specs.List.{cons_option};
ghost use Rattle.std.specs.Prelude.{◌≡◌, ◌<◌, ◌∷◌, ◌++◌, filter_map, unwrap_or};
ghost use Rattle.sig_dd.specs.Nodes.{Holds};
ghost use Rattle.sig_kernel.specs.Table.{kind_at};
ghost use Rattle.sig_file.specs.inner.Numbering.{AreNumbered, made_behind};
ghost use Rattle.sig_file.specs.inner.Parts.{view_of};
ghost use Rattle.sig_file.specs.PlanImages.{before, image_of, image_op, image_signal, made_of, memories_of, memory_of, ordered, visited};
ghost use Rattle.sig_file.specs.declared.limits.TheConstants.{IMAGE_BYTES, ROOM_FOR_NODES};

use crate::answer::FileAnswer;
use crate::image_ops::image_op;
use crate::images::{ImageMemory, ImageOp, ImageSignal};
use crate::numbering::Numbering;
use crate::read::Parts;
use sig_base::{Kind, OpId, SigId, Signal, Text};
use sig_clock::Clocks;
use sig_dd::Ref;
use sig_kernel::{Equation, Form, Kernel};
use sig_plan::{Op, Plan};
use std::alloc::{AllocError, Global};

/// A signal of an image.
fn image_signal(alloc: Global, signal: &Signal) -> Result<ImageSignal, AllocError>
    ensures { IfOk result (λ made. made ≡ image_signal signal.now) }
{
    Ok(ImageSignal {
        kind: signal.kind,
        name: Text::from_bytes(alloc, signal.name.as_bytes())?,
    })
}

/// The signals of an image.
fn signals_of(alloc: Global, signals: &[Signal]) -> Result<Vec<ImageSignal>, AllocError>
    ensures { IfOk result (λ made. made.items ≡ map image_signal signals.now) }
{
    let mut made = Vec::new(alloc);
    for signal in signals {
        made.push(image_signal(alloc, signal)?)?;
    }
    Ok(made)
}

/// The kind of a signal.
fn kind_of(signals: &[Signal], x: SigId) -> Kind
    ensures { result ≡ unwrap_or (kind_at signals.now x) Integer }
{
    match signals.get(x.0 as usize) {
        Some(signal) => signal.kind,
        None => Kind::Integer,
    }
}

/// The memory of a delay.
fn memory_of(signals: &[Signal], form: &Form) -> Option<ImageMemory>
    ensures { result ≡ memory_of signals.now form.now }
{
    match form {
        Form::Delay(y, _, init) => Some(ImageMemory {
            kind: kind_of(signals, *y),
            init: *init,
        }),
        _ => None,
    }
}

/// Adds a memory, if there is one.
fn add_memory(
    memories: &mut Vec<ImageMemory>,
    memory: Option<ImageMemory>,
) -> Result<(), AllocError>
    ensures { OnOk result (memories.new.items ≡ memories.old.items ++ cons_option memory []) }
{
    if let Some(memory) = memory {
        memories.push(memory)?;
    }
    Ok(())
}

/// The memories of an image.
fn memories_of(
    alloc: Global,
    signals: &[Signal],
    equations: &[Equation],
) -> Result<Vec<ImageMemory>, AllocError>
    ensures { IfOk result (λ made. made.items ≡ filter_map (λ equation. memory_of signals.now equation.form) equations.now) }
{
    let mut memories = Vec::new(alloc);
    for equation in equations {
        add_memory(&mut memories, memory_of(signals, &equation.form))?;
    }
    Ok(memories)
}

/// The nodes and the operations that were made so far.
#[derive(Drop)]
struct Made {
    numbering: Numbering,
    ops: Vec<ImageOp>,
}

impl Made {
    /// Adds an operation of a plan, and the nodes of its guard.
    fn add(&mut self, alloc: Global, plan: &Plan, op: &Op) -> Result<(), FileAnswer>
        requires held { Holds plan.now.store.nodes op.now.guard }
        requires numbered { AreNumbered ⟦<Ref as PartialEq>⟧.eq plan.now.store.nodes self.old.numbering.nodes.keys self.old.numbering.numbers }
        ensures numbered { OnOk result (AreNumbered ⟦<Ref as PartialEq>⟧.eq plan.now.store.nodes self.new.numbering.nodes.keys self.new.numbering.numbers) }
        ensures nodes { OnOk result (self.new.numbering.nodes.keys ≡ (visited (diagram plan.now.store.nodes op.now.guard) self.old.numbering.nodes.keys).0) }
        ensures ops { OnOk result (self.new.ops.items ≡ self.old.ops.items
            ++ before (image_op plan.now.kernel (visited (diagram plan.now.store.nodes op.now.guard) self.old.numbering.nodes.keys).1 op.now.kind op.now.eq) []) }
        ensures limit { (limit : ℕ) → result ≡ Err (FileAnswer.TooLong limit) → limit ≡ IMAGE_BYTES }
        ensures long { (limit : ℕ) → result ≡ Err (FileAnswer.TooLong limit)
            → ROOM_FOR_NODES < length (visited (diagram plan.now.store.nodes op.now.guard) self.old.numbering.nodes.keys).0 }
    {
        let guard = self.numbering.number(&plan.store, op.guard)?;
        if let Some(made) = image_op(alloc, &plan.kernel, guard, op)? {
            self.ops.push(made)?;
        }
        Ok(())
    }

    /// Adds the operation of a number, if there is one.
    fn add_numbered(&mut self, alloc: Global, plan: &Plan, id: OpId) -> Result<(), FileAnswer>
        requires numbered { AreNumbered ⟦<Ref as PartialEq>⟧.eq plan.now.store.nodes self.old.numbering.nodes.keys self.old.numbering.numbers }
        ensures numbered { OnOk result (AreNumbered ⟦<Ref as PartialEq>⟧.eq plan.now.store.nodes self.new.numbering.nodes.keys self.new.numbering.numbers) }
        ensures made { (order : List OpId) → OnOk result
            (made_behind plan.now (id ∷ order) self.old.numbering.nodes.keys self.old.ops.items
            ≡ made_behind plan.now order self.new.numbering.nodes.keys self.new.ops.items) }
        ensures limit { (limit : ℕ) → result ≡ Err (FileAnswer.TooLong limit) → limit ≡ IMAGE_BYTES }
        ensures long { (order : List OpId) (limit : ℕ) → result ≡ Err (FileAnswer.TooLong limit)
            → ROOM_FOR_NODES < length (made_behind plan.now (id ∷ order) self.old.numbering.nodes.keys self.old.ops.items).0 }
    {
        match plan.ops.get(id.0 as usize) {
            Some(op) => self.add(alloc, plan, op),
            None => Ok(()),
        }
    }

    /// Adds the operations of these numbers.
    fn add_all(&mut self, alloc: Global, plan: &Plan, order: &[OpId]) -> Result<(), FileAnswer>
        requires numbered { AreNumbered ⟦<Ref as PartialEq>⟧.eq plan.now.store.nodes self.old.numbering.nodes.keys self.old.numbering.numbers }
        ensures made { OnOk result (made_behind plan.now order.now self.old.numbering.nodes.keys self.old.ops.items
            ≡ (self.new.numbering.nodes.keys, self.new.ops.items)) }
        ensures limit { (limit : ℕ) → result ≡ Err (FileAnswer.TooLong limit) → limit ≡ IMAGE_BYTES }
        ensures long { (limit : ℕ) → result ≡ Err (FileAnswer.TooLong limit)
            → ROOM_FOR_NODES < length (made_behind plan.now order.now self.old.numbering.nodes.keys self.old.ops.items).0 }
    {
        for id in order {
            self.add_numbered(alloc, plan, *id)?;
        }
        Ok(())
    }
}

/// The nodes and the operations of an image.
fn made_of(alloc: Global, plan: &Plan) -> Result<Made, FileAnswer>
    ensures made { IfOk result (λ made. (made.numbering.nodes.keys, made.ops.items) ≡ made_of plan.now (ordered plan.now) []) }
    ensures limit { (limit : ℕ) → result ≡ Err (FileAnswer.TooLong limit) → limit ≡ IMAGE_BYTES }
    ensures long { (limit : ℕ) → result ≡ Err (FileAnswer.TooLong limit) → ROOM_FOR_NODES < length (image_of plan.now).nodes }
{
    let mut made = Made {
        numbering: Numbering::new(alloc),
        ops: Vec::new(alloc),
    };
    made.add_all(alloc, plan, &plan.order)?;
    Ok(made)
}

/// The conditions of clocks.
fn conditions_of(alloc: Global, clocks: &Clocks) -> Result<Vec<SigId>, AllocError>
    ensures { IfOk result (λ made. made.items ≡ clocks.now.conditions) }
{
    Vec::from_slice(alloc, &clocks.conditions)
}

/// The parts of an image, whose nodes and operations are made.
fn parts_with(
    alloc: Global,
    kernel: &Kernel,
    clocks: &Clocks,
    made: Made,
) -> Result<Parts, AllocError>
    ensures signals { IfOk result (λ parts. parts.signals.items ≡ map image_signal kernel.now.signals) }
    ensures inputs { IfOk result (λ parts. parts.inputs ≡ kernel.now.inputs) }
    ensures outputs { IfOk result (λ parts. parts.outputs ≡ kernel.now.outputs) }
    ensures conditions { IfOk result (λ parts. parts.conditions.items ≡ clocks.now.conditions) }
    ensures memories { IfOk result (λ parts. parts.memories.items ≡ memories_of kernel.now) }
    ensures nodes { IfOk result (λ parts. parts.nodes.items ≡ made.numbering.nodes.keys) }
    ensures ops { IfOk result (λ parts. parts.ops.items ≡ made.ops.items) }
{
    let signals = kernel.signals.as_slice();
    let equations = kernel.equations.as_slice();
    let Made { numbering, ops } = made;
    Ok(Parts {
        signals: signals_of(alloc, signals)?,
        inputs: kernel.inputs,
        outputs: kernel.outputs,
        conditions: conditions_of(alloc, clocks)?,
        memories: memories_of(alloc, signals, equations)?,
        nodes: Vec::from_slice(alloc, numbering.nodes.as_slice())?,
        ops,
    })
}

/// The parts of the image of a plan.
pub fn parts_of(alloc: Global, plan: &Plan) -> Result<Parts, FileAnswer>
    ensures parts { IfOk result (λ parts. view_of parts ≡ image_of plan.now) }
    ensures limit { (limit : ℕ) → result ≡ Err (FileAnswer.TooLong limit) → limit ≡ IMAGE_BYTES }
    ensures long { (limit : ℕ) → result ≡ Err (FileAnswer.TooLong limit) → ROOM_FOR_NODES < length (image_of plan.now).nodes }
{
    let made = made_of(alloc, plan)?;
    Ok(parts_with(alloc, &plan.kernel, &plan.clocks, made)?)
}
