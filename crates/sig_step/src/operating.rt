//! The operations of an actor.

ghost use Rattle.std.specs.Prelude.{◌≡◌};
ghost use Rattle.sig_step.specs.Prelude.{code_of, turn_by, StepKind};
ghost use Rattle.sig_step.specs.LinkEnds.{Nothing};
ghost use Rattle.sig_step.specs.Moving.{IsReady, IsSameActor, StaysMet};
ghost use Rattle.sig_step.specs.Acting.{Acts, NamesNoLink, done_as};
ghost use Rattle.sig_step.specs.States.{IsStateOf, actor_of};

use crate::answer::Acted;
use crate::state::ClusterState;
use sig_base::{OpId, Place};
use sig_kernel::Inputs;
use sig_plan::{Plan, Step, StepKind};

impl ClusterState {
    /// Does an operation, or ends where it has no value.
    #[inline(always)]
    pub(crate) fn operate(&mut self, plan: &Plan, inputs: &Inputs, code: &[Step], o: OpId) -> Acted
        requires ready { IsReady plan.now inputs.now self.old (StepKind.Do o) }
        requires code { code.now ≡ (code_of plan.now self.old.actor).steps }
        ensures acts { Acts plan.now.kernel (turn_by plan.now inputs.now (code_of plan.now self.old.actor) (actor_of self.old) (StepKind.Do o)) result self.old self.new Nothing }
        ensures state { IsStateOf plan.now inputs.now self.new }
        ensures same { IsSameActor self.old self.new }
        ensures met { StaysMet plan.now result self.new }
        ensures alone { NamesNoLink result }
    {
        match self.do_operation(plan, inputs, code, o) {
            Ok(()) => Acted::Done,
            Err(place) => Acted::Failed(place),
        }
    }

    /// Does the operation of the next step, or ends where it has no value.
    #[inline(always)]
    fn do_operation(
        &mut self,
        plan: &Plan,
        inputs: &Inputs,
        steps: &[Step],
        _o: OpId,
    ) -> Result<(), Place>
        requires ready { IsReady plan.now inputs.now self.old (StepKind.Do _o) }
        requires steps { steps.now ≡ (code_of plan.now self.old.actor).steps }
        ensures acts { Acts plan.now.kernel (turn_by plan.now inputs.now (code_of plan.now self.old.actor) (actor_of self.old) (StepKind.Do _o)) (done_as result) self.old self.new Nothing }
        ensures state { IsStateOf plan.now inputs.now self.new }
        ensures same { IsSameActor self.old self.new }
    {
        if self.values.follow(plan, self.actor, self.step, inputs) {
            self.move_on(plan, steps);
            Ok(())
        } else {
            self.ended = true;
            Err(self.next_place())
        }
    }
}
