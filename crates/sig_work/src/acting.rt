//! The steps of one actor of a share.

ghost use Rattle.std.specs.Prelude.{◌≡◌, ◌<◌};
ghost use Rattle.sig_work.specs.Prelude.{ℕ, List, Reaction};
ghost use Rattle.sig_work.specs.Members.{HasActedAs, HasDone, IsOfSomeRun, IsSameMember, run_of};

use crate::ends::Lent;
use crate::member::Member;
use crate::neighbours::Neighbours;
use sig_dd::Steps;
use sig_halt::Halt;
use sig_kernel::Inputs;
use sig_plan::Plan;
use sig_step::{Acted, actors_in, plans_are_accepted};
use sig_text::Gate;
use std::sync::Wait;
use std::sync::ledger::{Blank, Ledger};

/// How many steps of an instant an actor does at once, but the first.
const MORE_AT_ONCE: u32 = 255;

impl Member {
    /// Passes the gate where the actor is a cluster that came to an instant.
    pub(crate) fn pass<G: Gate>(&mut self, plan: &Plan, gate: &G)
        ensures { self.new ≡ record self.old { passed = self.new.passed } }
    {
        let cluster = self.number;
        let instant = self.state.instant();
        if (cluster as usize) + 1 < actors_in(plan)
            && self.passed < instant
            && !self.state.ended()
        {
            self.passed = instant;
            gate.pass(cluster, instant);
        }
    }

    /// Does the actor's next steps of one instant.
    pub(crate) fn act<R: Wait, L: Ledger>(
        &mut self,
        rt: &R,
        plan: &Plan,
        inputs: &Inputs,
        halt: &Halt,
        blank: Blank,
    ) -> Acted
        requires run { IsOfSomeRun plan.now inputs.now self.old }
        requires name { blank.name ≡ L.name }
        requires parts { blank.parts ≡ L.parts }
        requires some { 0 < L.parts }
        ensures done { (capacity limit : ℕ) (committed : List Reaction) → HasDone (run_of plan.now inputs.now capacity limit) committed self.old
            → HasActedAs (run_of plan.now inputs.now capacity limit) committed result self.new }
        ensures same { IsSameMember self.old self.new }
        ensures rest { self.new ≡ record self.old { state = self.new.state; ends = self.new.ends } }
    {
        plans_are_accepted(plan);
        let mut steps = Steps::<L>::new(blank);
        let mut lent = Lent {
            rt,
            neighbours: Neighbours { plan, halt },
            ends: self.ends.take(),
        };
        let acted = self
            .state
            .act_on(plan, inputs, &mut lent, &mut steps, MORE_AT_ONCE);
        self.ends = lent.ends;
        acted
    }
}
