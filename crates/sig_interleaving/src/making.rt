//! The making of a core.

ghost use Rattle.std.specs.Prelude.{◌≡◌, ◌≤◌, ◌<◌, ◌+◌, ◌^◌};
ghost use Rattle.sig_interleaving.specs.Prelude.{IfOk, length, AreFlowsFor, opening};
ghost use Rattle.sig_interleaving.specs.Cores.{IsCore, IsReached, Shows, given_of};
ghost use Rattle.sig_interleaving.specs.inner.Making.{AreOpened};
ghost use Rattle.sig_interleaving.specs.Schedules.{AreBounded, BeginsTheText, GoesOn, HasTheEnd, InEachRun, KeepsToTheReference, RecordsNoneBefore};

use crate::answer::CoreAnswer;
use crate::laws::runs_keep_to_the_plan;
use crate::lists::Lists;
use crate::plans::links_in;
use crate::state::Core;
use sig_kernel::Inputs;
use sig_plan::Plan;
use sig_step::{ClusterState, actors_in};
use sig_values::lines_for;
use std::alloc::Global;

impl<'a> Core<'a> {
    /// The opening state of all actors of a plan, over links of a capacity and up to a limit of instants.
    /// All memory that a core will need is taken here.
    pub fn new(
        alloc: Global,
        plan: &'a Plan,
        inputs: &'a Inputs,
        capacity: u32,
        limit: u32,
    ) -> Result<Core<'a>, CoreAnswer>
        requires fits { AreFlowsFor plan.now.kernel inputs.now }
        requires capacity { 1 ≤ capacity }
        requires limit { limit + 1 < 2 ^ 32 }
        ensures core { IfOk result IsCore }
        ensures given { IfOk result (λ core. given_of core ≡ record { plan = plan.now; flows = inputs.now; capacity = capacity; limit = limit }) }
        ensures opening { IfOk result (Shows (opening plan.now)) }
        ensures reached { IfOk result IsReached }
        ensures text { InEachRun BeginsTheText plan.now inputs.now }
        ensures reference { InEachRun KeepsToTheReference plan.now inputs.now }
        ensures word { InEachRun RecordsNoneBefore plan.now inputs.now }
        ensures enabled { InEachRun GoesOn plan.now inputs.now }
        ensures end { InEachRun HasTheEnd plan.now inputs.now }
        ensures bound { AreBounded plan.now inputs.now }
    {
        runs_keep_to_the_plan(plan, inputs);
        Ok(Core {
            plan,
            inputs,
            capacity,
            limit,
            states: opened(alloc, plan, inputs, limit)?,
            lists: Lists::new(alloc, links_in(plan), capacity as usize)?,
            lines: lines_for(alloc, plan)?,
            word: u64::MAX,
        })
    }
}

/// The opening states of all actors of a plan.
fn opened(
    alloc: Global,
    plan: &Plan,
    inputs: &Inputs,
    limit: u32,
) -> Result<Vec<ClusterState>, CoreAnswer>
    requires fits { AreFlowsFor plan.now.kernel inputs.now }
    requires limit { limit + 1 < 2 ^ 32 }
    ensures opened { IfOk result (λ states. AreOpened plan.now inputs.now limit (length plan.now.codes) states.items) }
    ensures few { IfOk result (λ states. length states.items < 2 ^ 32) }
{
    let actors = actors_in(plan);
    if actors > u32::MAX as usize {
        return Err(CoreAnswer::OutOfMemory);
    }
    let mut states = Vec::with_capacity(alloc, actors)?;
    for actor in 0..actors {
        states.push(ClusterState::new(alloc, plan, actor as u32, inputs, limit)?)?;
    }
    Ok(states)
}
