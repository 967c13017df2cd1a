//! The clocks of any kernel, by its system.

ghost use Rattle.std.specs.Prelude.{◌≡◌, ◌+◌, ◌*◌, ◌≤◌};
ghost use Rattle.sig_solve.specs.Prelude.{ℕ, true, [], length, IfErr, IfOk, HasClocks, HasRoot, AreClocks, AreInOrder, conditions_of, is_condition, IsRoot, IsFree, IsStore, Keeps, Share, IsValid, IsUnknownCount, AreConditions, IsSystem};
ghost use Rattle.sig_solve.specs.inner.Asked.{IsAskedIn, variables_of};
ghost use Rattle.sig_solve.specs.Refusals.{IsRefusalOf, IsWithin, KeepsToShare, calls_of, rest_of_share, store_refusal};
ghost use Rattle.sig_solve.specs.inner.Rounds.{AreSettled};

use crate::answer::ClockAnswer;
use crate::asked::{Asked, asked_of};
use crate::classes::clocks_of;
use crate::frame::frame_of;
use crate::guards::guards_of;
use crate::layers::layers_of;
use crate::order::by_layer;
use crate::pinned::find_pinned;
use crate::roots::root_of;
use sig_base::SigId;
use sig_clock::{Clocks, condition_set};
use sig_dd::Store;
use sig_kernel::Kernel;
use sig_rel::{System, system};
use std::alloc::Global;

/// The clocks of a kernel by its system.
pub(crate) fn solve_by_system(
    alloc: Global,
    kernel: &Kernel,
    store: &mut Store,
) -> Result<Clocks, ClockAnswer>
    requires valid { IsValid kernel.now }
    ensures store { IsStore store.new }
    ensures kept { Keeps store.old store.new }
    ensures clocks { IfOk result (λ clocks. HasClocks kernel.now
        × AreClocks kernel.now store.new.nodes clocks) }
    ensures refused { IfErr result (IsRefusalOf kernel.now) }
    ensures share { KeepsToShare kernel.now store.old store.new result }
{
    // What holds of every store is known where one is asked.
    let _nodes = store.len();
    let conditions = condition_set(alloc, kernel)?;
    let conditions = conditions.as_slice();
    let system = system(alloc, kernel, conditions, store)?;
    solve_system(alloc, kernel, system, conditions, store)
}

/// The clocks of a kernel whose system stands in the store, and whose conditions are given.
fn solve_system(
    alloc: Global,
    kernel: &Kernel,
    system: System,
    conditions: &[SigId],
    store: &mut Store,
) -> Result<Clocks, ClockAnswer>
    requires valid { IsValid kernel.now }
    requires was_store { IsStore store.old }
    requires conditions { conditions.now ≡ conditions_of kernel.now }
    requires same { system.conditions ≡ conditions.now }
    requires system { IsSystem kernel.now store.old.nodes system }
    ensures store { IsStore store.new }
    ensures kept { Keeps store.old store.new }
    ensures clocks { IfOk result (λ clocks. HasClocks kernel.now
        × AreClocks kernel.now store.new.nodes clocks) }
    ensures refused { IfErr result (IsRefusalOf kernel.now) }
    ensures share { (unknowns : ℕ) → IsUnknownCount kernel.now unknowns
        → IsWithin (rest_of_share kernel.now unknowns) store.old store.new result }
{
    let frame = frame_of(alloc, kernel)?;
    let asked = asked_of(frame, system, store)?;
    solve_asked(alloc, &asked, store, conditions)
}

/// The clocks of a kernel whose solutions stand in the store, and whose conditions are given.
fn solve_asked(
    alloc: Global,
    asked: &Asked,
    store: &mut Store,
    conditions: &[SigId],
) -> Result<Clocks, ClockAnswer>
    requires asked { IsAskedIn store.old asked.now }
    requires conditions { conditions.now ≡ conditions_of asked.now.frame.kernel.now }
    ensures store { IsStore store.new }
    ensures kept { Keeps store.old store.new }
    ensures clocks { IfOk result (λ clocks. HasClocks asked.now.frame.kernel.now
        × AreClocks asked.now.frame.kernel.now store.new.nodes clocks) }
    ensures refused { IfErr result (IsRefusalOf asked.now.frame.kernel.now) }
    ensures share { Share (calls_of (length asked.now.frame.leaders.items)
        (length (conditions_of asked.now.frame.kernel.now)) asked.now.system.variables)
        (variables_of asked.now.system) store.old store.new (store_refusal result) }
{
    let root = root_of(asked, store)?;
    let layers = all_layers(alloc, asked, store, conditions)?;
    let ordered = free_conditions(alloc, asked, store, layers.as_slice(), conditions)?;
    clocks(alloc, asked, store, layers.as_slice(), ordered, root)
}

/// The layers of a kernel in which each signal enters.
fn all_layers(
    alloc: Global,
    asked: &Asked,
    store: &mut Store,
    conditions: &[SigId],
) -> Result<Vec<u32>, ClockAnswer>
    requires asked { IsAskedIn store.old asked.now }
    requires conditions { conditions.now ≡ conditions_of asked.now.frame.kernel.now }
    requires root { HasRoot asked.now.frame.kernel.now }
    ensures store { IsStore store.new }
    ensures kept { Keeps store.old store.new }
    ensures value { IfOk result (λ layers. AreSettled asked.now.frame layers.items []) }
    ensures refused { IfErr result (IsRefusalOf asked.now.frame.kernel.now) }
    ensures share { Share ((3 + 2 * asked.now.system.variables)
        * length asked.now.frame.leaders.items * length asked.now.frame.leaders.items)
        (variables_of asked.now.system) store.old store.new (store_refusal result) }
{
    let layers = layers_of(alloc, asked, store, conditions)?;
    if let Some(signal) = layers.waiting.as_slice().first() {
        return Err(ClockAnswer::Unsolved(SigId(*signal)));
    }
    Ok(layers.numbers)
}

/// The conditions in their order, where none is pinned.
fn free_conditions(
    alloc: Global,
    asked: &Asked,
    store: &mut Store,
    layers: &[u32],
    conditions: &[SigId],
) -> Result<Vec<SigId>, ClockAnswer>
    requires asked { IsAskedIn store.old asked.now }
    requires settled { AreSettled asked.now.frame layers.now [] }
    requires conditions { conditions.now ≡ conditions_of asked.now.frame.kernel.now }
    requires root { HasRoot asked.now.frame.kernel.now }
    ensures store { IsStore store.new }
    ensures kept { Keeps store.old store.new }
    ensures value { IfOk result (λ ordered. AreInOrder asked.now.frame.kernel.now ordered.items
        × (length ordered.items ≤ length (conditions_of asked.now.frame.kernel.now))
        × ((c : ℕ) → is_condition asked.now.frame.kernel.now c ≡ true → IsFree asked.now.frame.kernel.now c)) }
    ensures refused { IfErr result (IsRefusalOf asked.now.frame.kernel.now) }
    ensures share { Share ((5 + 2 * asked.now.system.variables)
        * length (conditions_of asked.now.frame.kernel.now))
        (variables_of asked.now.system) store.old store.new (store_refusal result) }
{
    let last = asked.frame.leaders.len() as u32;
    let ordered = by_layer(alloc, &asked.frame, layers, conditions, last)?;
    match find_pinned(alloc, asked, store, ordered.as_slice())? {
        Some(condition) => Err(ClockAnswer::Pinned(condition)),
        None => Ok(ordered),
    }
}

/// The clocks of a kernel that has them, from its layers and its conditions in their order.
fn clocks(
    alloc: Global,
    asked: &Asked,
    store: &mut Store,
    layers: &[u32],
    conditions: Vec<SigId>,
    root: SigId,
) -> Result<Clocks, ClockAnswer>
    requires asked { IsAskedIn store.old asked.now }
    requires settled { AreSettled asked.now.frame layers.now [] }
    requires conditions { AreInOrder asked.now.frame.kernel.now conditions.items }
    requires few { length conditions.items ≤ length (conditions_of asked.now.frame.kernel.now) }
    requires root { IsRoot asked.now.frame.kernel.now root.0 }
    requires has { HasClocks asked.now.frame.kernel.now }
    ensures store { IsStore store.new }
    ensures kept { Keeps store.old store.new }
    ensures value { IfOk result (AreClocks asked.now.frame.kernel.now store.new.nodes) }
    ensures refused { IfErr result (IsRefusalOf asked.now.frame.kernel.now) }
    ensures share { Share ((2 + 2 * asked.now.system.variables)
        * length asked.now.frame.leaders.items)
        (variables_of asked.now.system) store.old store.new (store_refusal result) }
{
    let guards = guards_of(alloc, asked, store, conditions.as_slice())?;
    Ok(clocks_of(
        alloc,
        &asked.frame,
        layers,
        conditions,
        guards.as_slice(),
        root,
    )?)
}
