//! How an actor goes on in its code.

ghost use Rattle.std.specs.Prelude.{◌≡◌, ◌<◌, ◌+◌, ◌^◌};
ghost use Rattle.sig_step.specs.Prelude.{ℕ, ℤ, List, length, slice_get, Some, code_of, moved_on, position_of, PlanView, IsMachineOfActor, instant_of, last_in, seen_in};
ghost use Rattle.sig_step.specs.Moving.{MayGoOn, MovesOn};
ghost use Rattle.sig_step.specs.States.{IsStateOf, actor_of};

use crate::state::ClusterState;
use sig_plan::{Plan, Step};

/// The position of a step, 0 where there is none.
#[inline(always)]
pub(crate) fn position_of(steps: &[Step], number: u32) -> u32
    ensures { result ≡ position_of (slice_get steps.now number) }
{
    match steps.get(number as usize) {
        Some(step) => step.pos,
        None => 0,
    }
}

/// The step of a number.
#[inline(always)]
pub(crate) fn step_in(steps: &[Step], number: u32) -> Step
    requires { number < length steps.now }
    ensures { slice_get steps.now number ≡ Some result }
{
    steps[number as usize]
}

impl ClusterState {
    /// Goes to the next step of the actor's code, or to the first one of the next instant.
    #[inline(always)]
    pub(crate) fn move_on(&mut self, plan: &Plan, steps: &[Step])
        requires may { (flows : List (List ℤ)) × MayGoOn plan.now flows self.old }
        requires steps { steps.now ≡ (code_of plan.now self.old.actor).steps }
        ensures moves { MovesOn plan.now self.old self.new }
        ensures state { (flows : List (List ℤ)) → MayGoOn plan.now flows self.old → IsStateOf plan.now flows self.new }
    {
        self.advance(steps.len());
        self.pos = position_of(steps, self.step);
    }

    /// Goes on among so many steps.
    #[inline(always)]
    fn advance(&mut self, count: usize)
        requires step { self.old.step < count }
        requires short { count < 2 ^ 32 }
        requires instant { instant_of self.old.values + 1 < 2 ^ 32 }
        requires machine { (plan : PlanView) × (k : ℕ) × (flows : List (List ℤ)) × IsMachineOfActor plan k flows self.old.values }
        ensures actor { actor_of self.new ≡ moved_on count (actor_of self.old) }
        ensures last { self.new.step ≡ 0 → last_in self.new.values ≡ seen_in self.old.values }
        ensures values { (plan : PlanView) (k : ℕ) (flows : List (List ℤ)) → IsMachineOfActor plan k flows self.old.values
            → IsMachineOfActor plan k flows self.new.values }
        ensures stays { self.new ≡ record self.old { step = self.new.step; values = self.new.values } }
    {
        if self.step as usize + 1 < count {
            self.step += 1;
        } else {
            self.step = 0;
            self.values.next_instant();
        }
    }
}
