//! Laws of the runs of a plan. The function of a law does nothing when it runs.

ghost use Rattle.sig_interleaving.specs.Cores.{IsCore};
ghost use Rattle.sig_interleaving.specs.Schedules.{AreBounded, BeginsTheText, GoesOn, HasTheEnd, HoldsOf, InEachRun, KeepsToTheReference, RecordsNoneBefore};
ghost use Rattle.sig_kernel.specs.Validity.{AreFlowsFor};

use crate::state::Core;
use sig_kernel::Inputs;
use sig_plan::Plan;
use sig_step::plans_are_accepted;

/// A law: what holds behind each list of events, over links of each capacity from 1 and up to each limit
/// from 1.
pub fn runs_keep_to_the_plan(plan: &Plan, inputs: &Inputs)
    requires fits { AreFlowsFor plan.now.kernel inputs.now }
    ensures text { InEachRun BeginsTheText plan.now inputs.now }
    ensures reference { InEachRun KeepsToTheReference plan.now inputs.now }
    ensures word { InEachRun RecordsNoneBefore plan.now inputs.now }
    ensures enabled { InEachRun GoesOn plan.now inputs.now }
    ensures end { InEachRun HasTheEnd plan.now inputs.now }
    ensures bound { AreBounded plan.now inputs.now }
{
    plans_are_accepted(plan);
}

/// A law: so it holds of the actual state of a core.
pub fn cores_keep_to_the_plan(core: &Core)
    requires { IsCore core.now }
    ensures text { HoldsOf BeginsTheText core.now }
    ensures reference { HoldsOf KeepsToTheReference core.now }
    ensures word { HoldsOf RecordsNoneBefore core.now }
    ensures enabled { HoldsOf GoesOn core.now }
    ensures end { HoldsOf HasTheEnd core.now }
{
    plans_are_accepted(core.plan);
}
