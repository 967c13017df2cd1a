//! The guards of codes.

use sig_clock::Clocks;
use sig_dd::{Ref, Store};
use sig_plan::{Code, Plan};
use std::alloc::AllocError;
use std::fmt::Write;

/// Whether a guard is always true, never, or at times.
fn truth_of(store: &Store, guard: Ref) -> &'static str {
    if guard == store.constant(true) {
        "always"
    } else if guard == store.constant(false) {
        "never"
    } else {
        "at times"
    }
}

/// The first signal whose guard this is.
fn first_of(clocks: &Clocks, guard: Ref) -> Option<usize> {
    clocks
        .class_of
        .iter()
        .position(|class| clocks.guard.get(*class as usize) == Some(&guard))
}

/// Adds the slots of a code, each with the truth of its guard, the first signal that has this guard, and its parent.
pub(crate) fn put_slots(out: &mut String, plan: &Plan, code: &Code) -> Result<(), AllocError> {
    for slot in code.slots() {
        let truth = truth_of(&plan.store, slot.guard);
        let first = first_of(&plan.clocks, slot.guard);
        write!(out, "{truth} {first:?} {:?}\n", slot.parent)?;
    }
    Ok(())
}

/// Adds the slots of the steps of a code.
pub(crate) fn put_steps(out: &mut String, code: &Code) -> Result<(), AllocError> {
    for step in code.steps() {
        write!(out, "{} ", step.slot)?;
    }
    let _ = out.pop();
    Ok(())
}
