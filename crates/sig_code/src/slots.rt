//! The steps of a code, and the slots of their guards.

ghost use Rattle.std.specs.Prelude.{◌≡◌, ◌∷◌, ◌<◌, ◌^◌};
ghost use Rattle.sig_code.specs.Prelude.{[], IfOk, OnOk, length, map, position, option_to_list, Holds, IsLastBelow};
ghost use Rattle.sig_code.specs.inner.Coding.{Adds, AreHeld, FindsSlot, IsWithin, has_guard};
ghost use Rattle.sig_code.specs.inner.Turns.{doing};

use crate::answer::CodeAnswer;
use sig_dd::{Ref, Store};
use sig_plan::{Code, Slot, Step, StepKind};

/// Where a step stands in the order, and for which proposals it is done.
#[derive(Clone, Copy)]
pub(crate) struct At {
    pub(crate) pos: u32,
    pub(crate) guard: Ref,
}

/// Adds a step, where there is one.
pub(crate) fn add_if_any(
    store: &Store,
    code: &mut Code,
    kind: Option<StepKind>,
    at: At,
) -> Result<(), CodeAnswer>
    requires guard { Holds store.now.nodes at.guard }
    requires slots { AreHeld store.now.nodes code.old.slots }
    ensures { OnOk result (Adds store.now.nodes (map (doing store.now.nodes at.guard at.pos) (option_to_list kind)) code.old code.new) }
{
    match kind {
        Some(kind) => add(store, code, kind, at),
        None => Ok(()),
    }
}

/// Adds a step, and a slot for its guard where it has none.
pub(crate) fn add(store: &Store, code: &mut Code, kind: StepKind, at: At) -> Result<(), CodeAnswer>
    requires guard { Holds store.now.nodes at.guard }
    requires slots { AreHeld store.now.nodes code.old.slots }
    ensures { OnOk result (Adds store.now.nodes (doing store.now.nodes at.guard at.pos kind ∷ []) code.old code.new) }
{
    let slot = slot_of(store, &mut code.slots, at.guard)?;
    code.steps.push(Step {
        kind,
        pos: at.pos,
        slot,
    })?;
    Ok(())
}

/// The number of the slot of a guard, which is added behind the others where there is none.
fn slot_of(store: &Store, slots: &mut Vec<Slot>, guard: Ref) -> Result<u32, CodeAnswer>
    requires guard { Holds store.now.nodes guard }
    requires slots { AreHeld store.now.nodes slots.old.items }
    ensures { IfOk result (FindsSlot store.now.nodes slots.old.items slots.new.items guard) }
{
    let count = slots.len();
    // More slots than there are numbers for them find no memory.
    if count > u32::MAX as usize {
        return Err(CodeAnswer::OutOfMemory);
    }
    if let Some(number) = slot_with(slots.as_slice(), guard) {
        return Ok(number as u32);
    }
    let parent = parent_of(store, slots.as_slice(), guard)?;
    slots.push(Slot { guard, parent })?;
    Ok(count as u32)
}

/// The number of the slot that has a guard, where there is one.
fn slot_with(slots: &[Slot], guard: Ref) -> Option<usize>
    ensures { result ≡ position (has_guard guard) slots.now }
{
    slots.iter().position(|slot| slot.guard == guard)
}

/// The last of these slots whose guard a guard implies, where there is one.
fn parent_of(store: &Store, slots: &[Slot], guard: Ref) -> Result<Option<u32>, CodeAnswer>
    requires few { length slots.now < 2 ^ 32 }
    requires guard { Holds store.now.nodes guard }
    requires slots { AreHeld store.now.nodes slots.now }
    ensures { IfOk result (IsLastBelow (IsWithin store.now.nodes slots.now guard) (length slots.now)) }
{
    for number in (0..slots.len()).rev() {
        if store.within(guard, slots[number].guard)? {
            return Ok(Some(number as u32));
        }
    }
    Ok(None)
}
