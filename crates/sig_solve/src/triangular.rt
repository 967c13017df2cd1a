//! The clocks of a triangular kernel: each list of truths for its conditions is a reaction, and the
//! presences in its system are the guards.

ghost use Rattle.std.specs.Prelude.{◌≡◌, ◌≤◌, ◌+◌};
ghost use Rattle.sig_solve.specs.Prelude.{ℕ, true, [], length, IfErr, IfOk, IsTrue, HasClocks, HasRoot, IsAlive, AreClocks, AreInOrder, is_condition, IsRoot, IsFree, IsStore, Keeps, IsValid, KeepsToShare, KeepsToTriangularShare, AreConditions, IsFreeSystem, IsSystem, AreClassesInOrder, IsTriangular};
ghost use Rattle.sig_solve.specs.Frames.{IsFrame};
ghost use Rattle.sig_solve.specs.Refusals.{IsRefusalOf, IsSystemRoom, IsWithin};
ghost use Rattle.sig_solve.specs.inner.Rounds.{AreSettled};
ghost use Rattle.sig_solve.specs.declared.answer.ClockAnswer.TheVariants.{OutOfMemory};

use crate::answer::ClockAnswer;
use crate::classes::clocks_of;
use crate::frame::{Frame, frame_of};
use crate::order::by_layer;
use crate::rounds::rounds_of;
use sig_base::SigId;
use sig_clock::{Clocks, condition_set};
use sig_dd::Store;
use sig_kernel::Kernel;
use sig_rel::{RelAnswer, System, free_system};
use std::alloc::Global;

/// The system of a triangular kernel.
fn system(
    alloc: Global,
    kernel: &Kernel,
    conditions: &[SigId],
    store: &mut Store,
) -> Result<System, RelAnswer>
    requires valid { IsValid kernel.now }
    requires conditions { AreConditions kernel.now conditions.now }
    requires triangular { IsTriangular kernel.now }
    ensures store { IsStore store.new }
    ensures kept { Keeps store.old store.new }
    ensures conditions { IfOk result (λ system. system.conditions ≡ conditions.now) }
    ensures system { IfOk result (IsSystem kernel.now store.new.nodes) }
    ensures free { IfOk result (IsFreeSystem store.new.nodes) }
    ensures share { KeepsToShare kernel.now store.old store.new result }
    ensures triangular { KeepsToTriangularShare kernel.now store.old store.new result }
{
    match free_system(alloc, kernel, conditions, store)? {
        Some(system) => Ok(system),
        None => unreachable!(),
    }
}

/// The system of a triangular kernel with its conditions in an order: one that is given, where it has
/// them in that order.
fn system_in(
    alloc: Global,
    kernel: &Kernel,
    first: System,
    conditions: &[SigId],
    store: &mut Store,
) -> Result<System, RelAnswer>
    requires valid { IsValid kernel.now }
    requires was_store { IsStore store.old }
    requires first { IsSystem kernel.now store.old.nodes first }
    requires first_free { IsFreeSystem store.old.nodes first }
    requires conditions { AreConditions kernel.now conditions.now }
    requires triangular { IsTriangular kernel.now }
    ensures store { IsStore store.new }
    ensures kept { Keeps store.old store.new }
    ensures conditions { IfOk result (λ system. system.conditions ≡ conditions.now) }
    ensures system { IfOk result (IsSystem kernel.now store.new.nodes) }
    ensures free { IfOk result (IsFreeSystem store.new.nodes) }
    ensures share { KeepsToShare kernel.now store.old store.new result }
    ensures triangular { KeepsToTriangularShare kernel.now store.old store.new result }
{
    if are_same(first.conditions.as_slice(), conditions) {
        return Ok(first);
    }
    system(alloc, kernel, conditions, store)
}

/// Whether two lists of conditions are the same.
fn are_same(a: &[SigId], b: &[SigId]) -> bool
    ensures { IsTrue result → a.now ≡ b.now }
{
    a == b
}

/// The layers of a triangular kernel, and its system with the conditions by number.
#[derive(Drop)]
struct Layered {
    numbers: Vec<u32>,
    system: System,
}

/// The layers of a triangular kernel: rounds over the system with the conditions by number.
fn triangular_layers(
    alloc: Global,
    frame: &Frame,
    store: &mut Store,
) -> Result<Layered, ClockAnswer>
    requires valid { IsValid frame.now.kernel.now }
    requires frame { IsFrame frame.now }
    requires store { IsStore store.old }
    requires triangular { IsTriangular frame.now.kernel.now }
    requires root { HasRoot frame.now.kernel.now }
    ensures store { IsStore store.new }
    ensures kept { Keeps store.old store.new }
    ensures value { IfOk result (λ layered. AreSettled frame.now layered.numbers.items []) }
    ensures system { IfOk result (λ layered. IsSystem frame.now.kernel.now store.new.nodes layered.system) }
    ensures free_system { IfOk result (λ layered. IsFreeSystem store.new.nodes layered.system) }
    ensures free { IfOk result (λ _. IsAlive frame.now.kernel.now
        × ((c : ℕ) → is_condition frame.now.kernel.now c ≡ true → IsFree frame.now.kernel.now c)) }
    ensures refused { IfErr result (IsRefusalOf frame.now.kernel.now) }
    ensures share { (room : ℕ) → IsSystemRoom frame.now.kernel.now room
        → IsWithin room store.old store.new result }
{
    let conditions = condition_set(alloc, frame.kernel)?;
    let system = system(alloc, frame.kernel, conditions.as_slice(), store)?;
    let layers = rounds_of(alloc, frame, &system, store)?;
    if let Some(signal) = layers.waiting.as_slice().first() {
        return Err(ClockAnswer::Unsolved(SigId(*signal)));
    }
    Ok(Layered {
        numbers: layers.numbers,
        system,
    })
}

/// The conditions in their order, from the layers.
fn ordered_conditions(
    alloc: Global,
    frame: &Frame,
    layers: &[u32],
) -> Result<Vec<SigId>, ClockAnswer>
    requires valid { IsValid frame.now.kernel.now }
    requires frame { IsFrame frame.now }
    requires settled { AreSettled frame.now layers.now [] }
    ensures conditions { IfOk result (λ ordered. AreInOrder frame.now.kernel.now ordered.items
        × AreConditions frame.now.kernel.now ordered.items) }
    ensures err { IfErr result (λ e. e ≡ OutOfMemory) }
{
    let conditions = condition_set(alloc, frame.kernel)?;
    let last = frame.leaders.len() as u32;
    let ordered = by_layer(alloc, frame, layers, conditions.as_slice(), last)?;
    Ok(ordered)
}

/// The clocks of a triangular kernel, from its layers, its conditions in their order and a system of it.
/// The guards are the presences in the system with the conditions in that order.
fn clocks_in(
    alloc: Global,
    frame: &Frame,
    layers: &[u32],
    conditions: Vec<SigId>,
    first: System,
    root: SigId,
    store: &mut Store,
) -> Result<Clocks, ClockAnswer>
    requires valid { IsValid frame.now.kernel.now }
    requires frame { IsFrame frame.now }
    requires was_store { IsStore store.old }
    requires first { IsSystem frame.now.kernel.now store.old.nodes first }
    requires first_free { IsFreeSystem store.old.nodes first }
    requires triangular { IsTriangular frame.now.kernel.now }
    requires settled { AreSettled frame.now layers.now [] }
    requires order { AreInOrder frame.now.kernel.now conditions.items }
    requires conditions { AreConditions frame.now.kernel.now conditions.items }
    requires root { IsRoot frame.now.kernel.now root.0 }
    requires has { HasClocks frame.now.kernel.now }
    ensures store { IsStore store.new }
    ensures kept { Keeps store.old store.new }
    ensures value { IfOk result (AreClocks frame.now.kernel.now store.new.nodes) }
    ensures refused { IfErr result (IsRefusalOf frame.now.kernel.now) }
    ensures share { (room : ℕ) → IsSystemRoom frame.now.kernel.now room
        → IsWithin room store.old store.new result }
{
    let system = system_in(alloc, frame.kernel, first, conditions.as_slice(), store)?;
    let guards = system.present.as_slice();
    Ok(clocks_of(alloc, frame, layers, conditions, guards, root)?)
}

/// The clocks of a triangular kernel with a root.
fn solve_frame(
    alloc: Global,
    frame: &Frame,
    root: SigId,
    store: &mut Store,
) -> Result<Clocks, ClockAnswer>
    requires valid { IsValid frame.now.kernel.now }
    requires frame { IsFrame frame.now }
    requires store { IsStore store.old }
    requires triangular { IsTriangular frame.now.kernel.now }
    requires root { IsRoot frame.now.kernel.now root.0 }
    ensures store { IsStore store.new }
    ensures kept { Keeps store.old store.new }
    ensures clocks { IfOk result (λ clocks. HasClocks frame.now.kernel.now
        × AreClocks frame.now.kernel.now store.new.nodes clocks) }
    ensures refused { IfErr result (IsRefusalOf frame.now.kernel.now) }
    ensures share { (room : ℕ) → IsSystemRoom frame.now.kernel.now room
        → IsWithin (room + room) store.old store.new result }
{
    let Layered { numbers, system } = triangular_layers(alloc, frame, store)?;
    let layers = numbers.as_slice();
    let ordered = ordered_conditions(alloc, frame, layers)?;
    clocks_in(alloc, frame, layers, ordered, system, root, store)
}

/// The clocks of a triangular kernel, of which the classes are given in an order in which each may
/// be written out.
pub(crate) fn solve_triangular(
    alloc: Global,
    kernel: &Kernel,
    classes: &[u32],
    store: &mut Store,
) -> Result<Clocks, ClockAnswer>
    requires valid { IsValid kernel.now }
    requires store { IsStore store.old }
    requires classes { AreClassesInOrder kernel.now classes.now }
    ensures store { IsStore store.new }
    ensures kept { Keeps store.old store.new }
    ensures clocks { IfOk result (λ clocks. HasClocks kernel.now
        × AreClocks kernel.now store.new.nodes clocks) }
    ensures refused { IfErr result (IsRefusalOf kernel.now) }
    ensures share { (room : ℕ) → IsSystemRoom kernel.now room
        → IsWithin (room + room) store.old store.new result }
{
    let Some(root) = classes.first() else {
        unreachable!();
    };
    let frame = frame_of(alloc, kernel)?;
    solve_frame(alloc, &frame, SigId(*root), store)
}
