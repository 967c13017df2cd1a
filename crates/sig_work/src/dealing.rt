//! The dealing of a plan's actors to shares.

ghost use Rattle.std.specs.Prelude.{◌≡◌, ◌≤◌, ◌<◌, ◌+◌, ◌^◌};
ghost use Rattle.sig_work.specs.Prelude.{IfOk, length, AreFlowsFor};
ghost use Rattle.sig_work.specs.inner.Dealing.{AreOpened};
ghost use Rattle.sig_work.specs.Gathered.{AreDealt};
ghost use Rattle.sig_work.specs.Members.{run_of};

use crate::answer::DealAnswer;
use crate::ends::LinkEnds;
use crate::handing::{hand_out, seated};
use crate::joining::join_all;
use crate::member::Member;
use crate::plans::links_in;
use crate::share::Share;
use sig_flow::OutputLines;
use sig_halt::Halt;
use sig_kernel::Inputs;
use sig_plan::Plan;
use sig_step::{ClusterState, actors_in, plans_are_accepted};
use sig_values::lines_for;
use std::alloc::{AllocError, Global};

/// The failure word and the shares of a plan's actors in their opening states, over links of a capacity and
/// up to a limit of instants: one share for each worker w of `workers` that has a cluster k with
/// `k mod workers = w`, with these clusters, and one more, the last, with the collector, which has every
/// cluster too where there are no workers. All memory that the shares need is taken here.
pub fn deal(
    alloc: Global,
    plan: &Plan,
    inputs: &Inputs,
    capacity: u32,
    limit: u32,
    workers: u32,
) -> Result<(Halt, Vec<Share>), DealAnswer>
    requires fits { AreFlowsFor plan.now.kernel inputs.now }
    requires capacity { (1 ≤ capacity) × (capacity ≤ 65536) }
    requires limit { limit + 1 < 2 ^ 32 }
    requires workers { workers ≤ 64 }
    ensures dealt { IfOk result (λ dealt. AreDealt (run_of plan.now inputs.now capacity limit) workers dealt.0 dealt.1.items) }
{
    plans_are_accepted(plan);
    let mut members = opened(alloc, plan, inputs, limit)?;
    join_all(alloc, plan, capacity, &mut members)?;
    let clusters = members.len() - 1;
    let served = clusters.min(workers as usize);
    let (halt, seat) = Halt::new(alloc, served as u32 + 1)?;
    let mut shares = seated(alloc, &halt, seat, served, members.len())?;
    hand_out(members, &mut shares);
    Ok((halt, shares))
}

/// Room for the lines of an instant, where the actor is the collector.
fn lines_of(alloc: Global, plan: &Plan, actor: usize) -> Result<OutputLines, AllocError> {
    if actor == actors_in(plan).saturating_sub(1) {
        lines_for(alloc, plan)
    } else {
        OutputLines::new(alloc, &[])
    }
}

/// All actors of a plan by number, in their opening states and without links.
fn opened(
    alloc: Global,
    plan: &Plan,
    inputs: &Inputs,
    limit: u32,
) -> Result<Vec<Member>, DealAnswer>
    requires fits { AreFlowsFor plan.now.kernel inputs.now }
    requires limit { limit + 1 < 2 ^ 32 }
    ensures { IfOk result (λ members. AreOpened plan.now inputs.now limit (length plan.now.codes) members.items) }
{
    let actors = actors_in(plan);
    if actors > u32::MAX as usize {
        return Err(DealAnswer::OutOfMemory);
    }
    let links = links_in(plan).len();
    let mut members = Vec::with_capacity(alloc, actors)?;
    for actor in 0..actors {
        members.push(Member {
            number: actor as u32,
            state: ClusterState::new(alloc, plan, actor as u32, inputs, limit)?,
            ends: LinkEnds::of_none(alloc, links)?,
            ending: None,
            passed: 0,
            lines: lines_of(alloc, plan, actor)?,
        })?;
    }
    Ok(members)
}
