//! The items that an actor sends.

ghost use Rattle.std.specs.Prelude.{◌≡◌};
ghost use Rattle.sig_step.specs.Prelude.{Contains, length, code_of, moved_on, Puts, item_of, seen_in};
ghost use Rattle.sig_step.specs.Acting.{Finds, TakesTurn};
ghost use Rattle.sig_step.specs.Moving.{IsSameActor, MayGoOn, StaysMet};
ghost use Rattle.sig_step.specs.States.{IsStateOf, actor_of};

use crate::answer::Acted;
use crate::ends::Ends;
use crate::state::ClusterState;
use sig_base::SigId;
use sig_kernel::Inputs;
use sig_plan::{Plan, Step};

impl ClusterState {
    /// The item of a link that carries this signal, or a report.
    #[inline(always)]
    pub(crate) fn item(&self, signal: Option<SigId>) -> i64
        ensures { result ≡ item_of (seen_in self.now.values) signal }
    {
        match signal {
            Some(x) => self.values.seen(x).unwrap_or(0),
            None => 0,
        }
    }

    /// Sends an item on a link, and goes on once the link has taken it.
    #[inline(always)]
    pub(crate) fn send<E: Ends>(
        &mut self,
        plan: &Plan,
        inputs: &Inputs,
        code: &[Step],
        ends: &mut E,
        link: u32,
        item: i64,
    ) -> Acted
        requires may { MayGoOn plan.now inputs.now self.old }
        requires end { Contains (E.pushes ends.old) link }
        requires code { code.now ≡ (code_of plan.now self.old.actor).steps }
        ensures turn { TakesTurn E.past E.queues plan.now.kernel (Puts link item (moved_on (length (code_of plan.now self.old.actor).steps) (actor_of self.old)))
            result self.old self.new ends.old ends.new }
        ensures state { IsStateOf plan.now inputs.now self.new }
        ensures same { IsSameActor self.old self.new }
        ensures found { Finds E.found_full E.found_empty result ends.old ends.new }
        ensures ends { E.same ends.old ends.new }
        ensures met { StaysMet plan.now result self.new }
        ensures pushes { E.pushes ends.new ≡ E.pushes ends.old }
        ensures pops { E.pops ends.new ≡ E.pops ends.old }
    {
        match ends.push(link, item) {
            Ok(()) => {
                self.move_on(plan, code);
                Acted::Done
            }
            Err(_) => Acted::Full(link),
        }
    }
}
