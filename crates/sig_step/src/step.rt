//! The next step of an actor.

ghost use Rattle.std.specs.Prelude.{◌≡◌, ◌≤◌, if◌then◌else◌};
ghost use Rattle.sig_step.specs.Prelude.{ℕ, false, length, slice_get, code_of, moved_on, Goes, turn, turn_at, turn_by, instant_of};
ghost use Rattle.sig_step.specs.Acting.{Counts, CountsNone, Finds, MayDo, MayUse, TakesTurn};
ghost use Rattle.sig_step.specs.GoingOn.{DoesStep};
ghost use Rattle.sig_step.specs.Moving.{IsReady, IsSameActor, StaysMet};
ghost use Rattle.sig_step.specs.States.{IsStateOf, actor_of};

use crate::answer::Acted;
use crate::ends::Ends;
use crate::plans::{carried, plans_can_run};
use crate::state::ClusterState;
use sig_dd::Steps;
use sig_kernel::Inputs;
use sig_plan::{Plan, Step, StepKind};
use std::sync::ledger::Ledger;

impl ClusterState {
    /// Does the next step of the actor, with its link ends, and counts the nodes that walks of guards
    /// visit. A guard is walked once in an instant at most, and only where that of its parent holds. Where
    /// it answers that a link is full or empty, that link was found so in this call. It takes no memory.
    #[inline(always)]
    pub fn act<E: Ends, L: Ledger>(
        &mut self,
        plan: &Plan,
        inputs: &Inputs,
        ends: &mut E,
        steps: &mut Steps<L>,
    ) -> Acted
        requires state { IsStateOf plan.now inputs.now self.old }
        requires links { MayUse plan.now self.old.actor (E.pushes ends.old) (E.pops ends.old) }
        ensures state { IsStateOf plan.now inputs.now self.new }
        ensures same { IsSameActor self.old self.new }
        ensures turn { TakesTurn E.past E.queues plan.now.kernel (turn plan.now inputs.now self.old.limit self.old.actor (actor_of self.old))
            result self.old self.new ends.old ends.new }
        ensures found { Finds E.found_full E.found_empty result ends.old ends.new }
        ensures ends { E.same ends.old ends.new }
        ensures met { StaysMet plan.now result self.new }
        ensures pushes { E.pushes ends.new ≡ E.pushes ends.old }
        ensures pops { E.pops ends.new ≡ E.pops ends.old }
        ensures counts { Counts plan.now self.old steps.old steps.new }
        ensures idle { CountsNone self.old steps.old steps.new }
    {
        if self.ended {
            return Acted::Stopped;
        }
        if self.values.instant() > self.limit {
            self.ended = true;
            return Acted::AtLimit;
        }
        let code = self.code(plan);
        self.take_step(plan, inputs, code, ends, steps)
    }

    /// Does the next step within the limit.
    #[inline(always)]
    pub(crate) fn take_step<E: Ends, L: Ledger>(
        &mut self,
        plan: &Plan,
        inputs: &Inputs,
        code: &[Step],
        ends: &mut E,
        steps: &mut Steps<L>,
    ) -> Acted
        requires state { IsStateOf plan.now inputs.now self.old }
        requires runs { self.old.ended ≡ false }
        requires within { instant_of self.old.values ≤ self.old.limit }
        requires links { MayUse plan.now self.old.actor (E.pushes ends.old) (E.pops ends.old) }
        requires code { code.now ≡ (code_of plan.now self.old.actor).steps }
        ensures does { DoesStep E.past E.queues E.found_full E.found_empty E.same plan.now inputs.now result self.old self.new ends.old ends.new steps.old steps.new }
        ensures pushes { E.pushes ends.new ≡ E.pushes ends.old }
        ensures pops { E.pops ends.new ≡ E.pops ends.old }
    {
        plans_can_run(plan);
        let step = self.next_step_in(plan, code);
        let holds = self.holds(plan, step.slot, steps);
        self.do_or_pass(plan, inputs, code, ends, step.kind, holds)
    }

    /// Does a step whose guard holds, and passes over another.
    #[inline(always)]
    fn do_or_pass<E: Ends>(
        &mut self,
        plan: &Plan,
        inputs: &Inputs,
        code: &[Step],
        ends: &mut E,
        kind: StepKind,
        holds: bool,
    ) -> Acted
        requires ready { IsReady plan.now inputs.now self.old kind }
        requires links { MayDo (E.pushes ends.old) (E.pops ends.old) kind }
        requires code { code.now ≡ (code_of plan.now self.old.actor).steps }
        ensures state { IsStateOf plan.now inputs.now self.new }
        ensures same { IsSameActor self.old self.new }
        ensures turn { TakesTurn E.past E.queues plan.now.kernel
            (if holds then turn_by plan.now inputs.now (code_of plan.now self.old.actor) (actor_of self.old) kind else Goes (moved_on (length (code_of plan.now self.old.actor).steps) (actor_of self.old)))
            result self.old self.new ends.old ends.new }
        ensures found { Finds E.found_full E.found_empty result ends.old ends.new }
        ensures ends { E.same ends.old ends.new }
        ensures met { StaysMet plan.now result self.new }
        ensures pushes { E.pushes ends.new ≡ E.pushes ends.old }
        ensures pops { E.pops ends.new ≡ E.pops ends.old }
    {
        if holds {
            self.perform(plan, inputs, code, ends, kind)
        } else {
            self.move_on(plan, code);
            Acted::Done
        }
    }

    /// Does a step whose guard holds.
    #[inline(always)]
    fn perform<E: Ends>(
        &mut self,
        plan: &Plan,
        inputs: &Inputs,
        code: &[Step],
        ends: &mut E,
        kind: StepKind,
    ) -> Acted
        requires ready { IsReady plan.now inputs.now self.old kind }
        requires links { MayDo (E.pushes ends.old) (E.pops ends.old) kind }
        requires code { code.now ≡ (code_of plan.now self.old.actor).steps }
        ensures state { IsStateOf plan.now inputs.now self.new }
        ensures same { IsSameActor self.old self.new }
        ensures turn { TakesTurn E.past E.queues plan.now.kernel (turn_by plan.now inputs.now (code_of plan.now self.old.actor) (actor_of self.old) kind)
            result self.old self.new ends.old ends.new }
        ensures found { Finds E.found_full E.found_empty result ends.old ends.new }
        ensures ends { E.same ends.old ends.new }
        ensures met { StaysMet plan.now result self.new }
        ensures pushes { E.pushes ends.new ≡ E.pushes ends.old }
        ensures pops { E.pops ends.new ≡ E.pops ends.old }
    {
        match kind {
            StepKind::Do(o) => self.operate(plan, inputs, code, o),
            StepKind::Send(j) => {
                let item = self.item(carried(plan, j));
                self.send(plan, inputs, code, ends, j, item)
            }
            StepKind::Report(j) => self.send(plan, inputs, code, ends, j, 0),
            StepKind::Receive(j) => self.receive(plan, inputs, code, ends, j, carried(plan, j)),
            StepKind::Collect(j) => self.receive(plan, inputs, code, ends, j, None),
            StepKind::Commit => {
                self.move_on(plan, code);
                Acted::Commit
            }
        }
    }
}
