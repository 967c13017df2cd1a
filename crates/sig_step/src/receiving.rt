//! The items that an actor takes.

ghost use Rattle.std.specs.Prelude.{◌≡◌};
ghost use Rattle.sig_step.specs.Prelude.{ℤ, Contains, length, Some, SigId, code_of, moved_on, FillsAt, IsThere, IsRunnable, Takes, received};
ghost use Rattle.sig_step.specs.Acting.{Finds, TakesTurn};
ghost use Rattle.sig_step.specs.Moving.{IsSameActor, MayGoOn, StaysMet};
ghost use Rattle.sig_step.specs.States.{IsStateOf, actor_of};

use crate::answer::Acted;
use crate::ends::Ends;
use crate::state::ClusterState;
use sig_base::SigId;
use sig_kernel::Inputs;
use sig_plan::{Plan, Step};

impl ClusterState {
    /// Takes an item from a link into the register of a signal, where there is one, and goes on once the
    /// link has given it.
    #[inline(always)]
    pub(crate) fn receive<E: Ends>(
        &mut self,
        plan: &Plan,
        inputs: &Inputs,
        code: &[Step],
        ends: &mut E,
        link: u32,
        signal: Option<SigId>,
    ) -> Acted
        requires runnable { IsRunnable plan.now }
        requires may { MayGoOn plan.now inputs.now self.old }
        requires end { Contains (E.pops ends.old) link }
        requires there { IsThere plan.now signal }
        requires fills { (x : SigId) → signal ≡ Some x → FillsAt plan.now self.old.actor self.old.step x }
        requires code { code.now ≡ (code_of plan.now self.old.actor).steps }
        ensures turn { TakesTurn E.past E.queues plan.now.kernel (Takes link (λ (item : ℤ). moved_on (length (code_of plan.now self.old.actor).steps) (received signal item (actor_of self.old))))
            result self.old self.new ends.old ends.new }
        ensures state { IsStateOf plan.now inputs.now self.new }
        ensures same { IsSameActor self.old self.new }
        ensures found { Finds E.found_full E.found_empty result ends.old ends.new }
        ensures ends { E.same ends.old ends.new }
        ensures met { StaysMet plan.now result self.new }
        ensures pushes { E.pushes ends.new ≡ E.pushes ends.old }
        ensures pops { E.pops ends.new ≡ E.pops ends.old }
    {
        match ends.pop(link) {
            Some(item) => {
                self.values.write(signal, item);
                self.move_on(plan, code);
                Acted::Done
            }
            None => Acted::Empty(link),
        }
    }
}
