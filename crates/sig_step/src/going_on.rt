//! Several steps of an actor.

ghost use Rattle.std.specs.Prelude.{◌≡◌, ◌≢◌, ◌≤◌, ◌<◌, ◌+◌, ◌^◌, ◌↔◌, IsTrue};
ghost use Rattle.sig_step.specs.Prelude.{Some, false, true, code_of, instant_of, slice_get};
ghost use Rattle.sig_step.specs.Acting.{MayUse};
ghost use Rattle.sig_step.specs.GoingOn.{ActsOn, DoesStep};
ghost use Rattle.sig_step.specs.Moving.{IsSameActor};
ghost use Rattle.sig_step.specs.States.{IsStateOf, known_in};
ghost use Rattle.sig_step.specs.inner.Passing.{PassesOver};
ghost use Rattle.sig_step.specs.declared.answer.Acted.TheVariants.{Done};

use crate::answer::Acted;
use crate::ends::Ends;
use crate::moving::position_of;
use crate::plans::plans_can_run;
use crate::state::ClusterState;
use sig_dd::Steps;
use sig_kernel::Inputs;
use sig_plan::{Plan, Step};
use std::sync::ledger::Ledger;

impl ClusterState {
    /// Does steps of the actor as `act` does, one after another, so long as each of them is done: at least one,
    /// none behind the first that comes to a next instant, and no more than one and so many. It answers what the
    /// last of them came to, and takes no memory.
    pub fn act_on<E: Ends, L: Ledger>(
        &mut self,
        plan: &Plan,
        inputs: &Inputs,
        ends: &mut E,
        steps: &mut Steps<L>,
        more: u32,
    ) -> Acted
        requires state { IsStateOf plan.now inputs.now self.old }
        requires links { MayUse plan.now self.old.actor (E.pushes ends.old) (E.pops ends.old) }
        ensures steps { ActsOn E.past E.queues E.found_full E.found_empty E.same plan.now inputs.now more result self.old self.new ends.old ends.new steps.old steps.new }
        ensures state { IsStateOf plan.now inputs.now self.new }
        ensures same { IsSameActor self.old self.new }
        ensures pushes { E.pushes ends.new ≡ E.pushes ends.old }
        ensures pops { E.pops ends.new ≡ E.pops ends.old }
    {
        if !self.runs() {
            return self.act_once(plan, inputs, ends, steps);
        }
        let code = self.code(plan);
        let mut left = more;
        while left > 0 {
            left -= 1;
            left -= self.go_on(plan, inputs, code, left);
            let acted = self.take_step(plan, inputs, code, ends, steps);
            if !self.is_amid(acted) {
                return acted;
            }
        }
        self.act_once(plan, inputs, ends, steps)
    }

    /// Does the operations of the next steps in a row, where their guard is known in this instant to hold, but no more
    /// than so many, and tells how many were done. No link is asked, no guard is met, and no instant ends.
    #[inline(always)]
    fn go_on(&mut self, plan: &Plan, inputs: &Inputs, code: &[Step], most: u32) -> u32
        requires state { IsStateOf plan.now inputs.now self.old }
        requires runs { self.old.ended ≡ false }
        requires within { instant_of self.old.values ≤ self.old.limit }
        requires code { code.now ≡ (code_of plan.now self.old.actor).steps }
        ensures few { result ≤ most }
        ensures over { (over : PassesOver plan.now inputs.now self.old self.new) × (over.count ≡ result) }
    {
        plans_can_run(plan);
        let step = self.next_step_in(plan, code);
        let row = self.rows[self.step as usize] - self.step;
        if row == 0 {
            return 0;
        }
        if !self.is_on(step.slot) {
            return 0;
        }
        let count = if row < most { row } else { most };
        let done = self
            .values
            .follow_row(plan, self.actor, self.step, count, inputs);
        self.step += done;
        self.pos = position_of(code, self.step);
        done
    }

    /// Whether it is known in this instant that the guard of a slot holds.
    #[inline(always)]
    fn is_on(&self, number: u32) -> bool
        ensures { IsTrue result ↔ (known_in (instant_of self.now.values) (slice_get self.now.marks.items number) ≡ Some true) }
    {
        self.known(number) == Some(true)
    }

    /// Whether the actor runs within its limit.
    #[inline(always)]
    fn runs(&self) -> bool
        ensures runs { IsTrue result → self.now.ended ≡ false }
        ensures within { IsTrue result → instant_of self.now.values ≤ self.now.limit }
    {
        !self.ended && self.values.instant() <= self.limit
    }

    /// Does the next step.
    #[inline(never)]
    fn act_once<E: Ends, L: Ledger>(
        &mut self,
        plan: &Plan,
        inputs: &Inputs,
        ends: &mut E,
        steps: &mut Steps<L>,
    ) -> Acted
        requires state { IsStateOf plan.now inputs.now self.old }
        requires links { MayUse plan.now self.old.actor (E.pushes ends.old) (E.pops ends.old) }
        ensures does { DoesStep E.past E.queues E.found_full E.found_empty E.same plan.now inputs.now result self.old self.new ends.old ends.new steps.old steps.new }
        ensures pushes { E.pushes ends.new ≡ E.pushes ends.old }
        ensures pops { E.pops ends.new ≡ E.pops ends.old }
    {
        self.act(plan, inputs, ends, steps)
    }

    /// Whether a step was done behind which another one of the same instant comes.
    #[inline(always)]
    fn is_amid(&self, acted: Acted) -> bool
        ensures done { IsTrue result → acted ≡ Done }
        ensures amid { IsTrue result → self.now.step ≢ 0 }
    {
        match acted {
            Acted::Done => self.step > 0,
            _ => false,
        }
    }
}
