//! The guards of an actor's steps.

ghost use Rattle.std.specs.Prelude.{◌≡◌, ◌<◌, ◌&&◌};
ghost use Rattle.sig_step.specs.Prelude.{ℕ, false, length, slice_get, slice_set, Some, Depends, Holds, test, IsRunnable, code_of, slot_holds, truths_of, Step, instant_of, seen_in, truths_in};
ghost use Rattle.sig_step.specs.Acting.{CountsNeeds, CountsWalk};
ghost use Rattle.sig_step.specs.Moving.{IsSlotMet};
ghost use Rattle.sig_step.specs.States.{AreMarks, known_in, mark_holds, parent_holds};

use crate::plans::code_at;
use crate::state::{ClusterState, Mark};
use sig_dd::Steps;
use sig_plan::{Plan, Slot};
use std::sync::ledger::Ledger;

/// The slot of a number.
#[inline(always)]
pub(crate) fn slot_in(slots: &[Slot], number: u32) -> Slot
    requires { number < length slots.now }
    ensures { slice_get slots.now number ≡ Some result }
{
    slots[number as usize]
}

impl ClusterState {
    /// Whether the guard of the next step's slot holds. It is walked once in an instant at most, and only
    /// where that of its parent holds.
    #[inline(always)]
    pub(crate) fn holds<L: Ledger>(
        &mut self,
        plan: &Plan,
        number: u32,
        steps: &mut Steps<L>,
    ) -> bool
        requires actor { self.old.actor < length plan.now.codes }
        requires told { truths_in self.old.values ≡ truths_of plan.now.clocks.conditions (seen_in self.old.values) }
        requires marks { AreMarks plan.now self.old }
        requires runnable { IsRunnable plan.now }
        requires step { (step : Step) × (slice_get (code_of plan.now self.old.actor).steps self.old.step ≡ Some step) × (step.slot ≡ number) }
        ensures value { result ≡ slot_holds plan.now.store.nodes (truths_of plan.now.clocks.conditions (seen_in self.old.values))
            (slice_get (code_of plan.now self.old.actor).slots number) }
        ensures marks { AreMarks plan.now self.new }
        ensures met { IsSlotMet self.new number }
        ensures stays { self.new ≡ record self.old { marks = self.new.marks } }
        ensures counted { (slot : Slot) → slice_get (code_of plan.now self.old.actor).slots number ≡ Some slot
            → CountsWalk plan.now self.old number slot steps.old steps.new }
    {
        if let Some(holds) = self.known(number) {
            return holds;
        }
        let slot = self.slot_at(plan, number);
        let holds = self.walk(plan, slot, steps);
        self.note(number, holds);
        holds
    }

    /// The slot of a number in the actor's code.
    #[inline(always)]
    fn slot_at(&self, plan: &Plan, number: u32) -> Slot
        requires actor { self.now.actor < length plan.now.codes }
        requires number { number < length (code_of plan.now self.now.actor).slots }
        ensures { slice_get (code_of plan.now self.now.actor).slots number ≡ Some result }
    {
        slot_in(code_at(plan, self.actor).slots(), number)
    }

    /// Whether the guard of a slot holds, where that is known in this instant.
    #[inline(always)]
    pub(crate) fn known(&self, number: u32) -> Option<bool>
        ensures { result ≡ known_in (instant_of self.now.values) (slice_get self.now.marks.items number) }
    {
        match self.marks.as_slice().get(number as usize) {
            Some(mark) if mark.instant == self.values.instant() => Some(mark.holds),
            _ => None,
        }
    }

    /// Notes in this instant whether the guard of a slot holds.
    #[inline(always)]
    pub(crate) fn note(&mut self, number: u32, holds: bool)
        requires { number < length self.old.marks.items }
        ensures marks { self.new.marks.items ≡ slice_set self.old.marks.items number (record { instant = instant_of self.old.values; holds = holds }) }
        ensures stays { self.new ≡ record self.old { marks = self.new.marks } }
    {
        let instant = self.values.instant();
        self.marks[number as usize] = Mark { instant, holds };
    }

    /// Walks a guard, where that of its parent holds.
    #[inline(always)]
    fn walk<L: Ledger>(&self, plan: &Plan, slot: Slot, steps: &mut Steps<L>) -> bool
        requires held { Holds plan.now.store.nodes slot.guard }
        requires needs { (v : ℕ) → Depends (test plan.now.store.nodes slot.guard) v → v < length plan.now.clocks.conditions }
        requires told { truths_in self.now.values ≡ truths_of plan.now.clocks.conditions (seen_in self.now.values) }
        ensures value { result ≡ (parent_holds self.now slot.parent
            && test plan.now.store.nodes slot.guard (truths_of plan.now.clocks.conditions (seen_in self.now.values))) }
        ensures needs { CountsNeeds plan.now.store.nodes slot.guard steps.old steps.new }
        ensures parent { parent_holds self.now slot.parent ≡ false → steps.new ≡ steps.old }
    {
        self.parent_holds(slot.parent) && plan.store.eval(slot.guard, self.values.truths(), steps)
    }

    /// Whether the guard of the parent holds, where there is one.
    #[inline(always)]
    pub(crate) fn parent_holds(&self, parent: Option<u32>) -> bool
        ensures { result ≡ parent_holds self.now parent }
    {
        match parent {
            Some(number) => self.mark_holds(number),
            None => true,
        }
    }

    #[inline(always)]
    fn mark_holds(&self, number: u32) -> bool
        ensures { result ≡ mark_holds (slice_get self.now.marks.items number) }
    {
        match self.marks.as_slice().get(number as usize) {
            Some(mark) => mark.holds,
            None => true,
        }
    }
}
