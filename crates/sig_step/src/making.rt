//! The making of an actor's state.

ghost use Rattle.std.specs.Prelude.{◌≡◌, ◌<◌, ◌+◌, ◌^◌};
ghost use Rattle.sig_step.specs.Prelude.{false, length, replicate, IfOk, AreFlowsFor, opening_actor};
ghost use Rattle.sig_step.specs.States.{IsStateOf, actor_of};

use crate::answer::StepAnswer;
use crate::moving::position_of;
use crate::plans::{code_at, plans_can_run};
use crate::rows::rows_of;
use crate::state::{ClusterState, Mark};
use sig_kernel::Inputs;
use sig_machine::ActorMachine;
use sig_plan::Plan;
use std::alloc::{AllocError, Global};

impl ClusterState {
    /// The opening state of an actor of a plan, which runs up to a limit of instants. All memory that it
    /// will need is taken here.
    pub fn new(
        alloc: Global,
        plan: &Plan,
        actor: u32,
        inputs: &Inputs,
        limit: u32,
    ) -> Result<ClusterState, StepAnswer>
        requires actor { actor < length plan.now.codes }
        requires fits { AreFlowsFor plan.now.kernel inputs.now }
        requires limit { limit + 1 < 2 ^ 32 }
        ensures state { IfOk result (λ s. IsStateOf plan.now inputs.now s) }
        ensures opening { IfOk result (λ s. actor_of s ≡ opening_actor plan.now.kernel) }
        ensures number { IfOk result (λ s. s.actor ≡ actor) }
        ensures limit { IfOk result (λ s. s.limit ≡ limit) }
    {
        plans_can_run(plan);
        let code = code_at(plan, actor);
        if code.steps().len() > u32::MAX as usize {
            return Err(StepAnswer::OutOfMemory);
        }
        Ok(ClusterState {
            actor,
            limit,
            step: 0,
            pos: position_of(code.steps(), 0),
            ended: false,
            values: ActorMachine::new(alloc, plan, actor, inputs)?,
            marks: unknown(alloc, code.slots().len())?,
            rows: rows_of(alloc, code.steps())?,
        })
    }
}

/// Of so many guards nothing is known.
fn unknown(alloc: Global, slots: usize) -> Result<Vec<Mark>, AllocError>
    ensures { IfOk result (λ marks. marks.items ≡ replicate slots (record { instant = 0; holds = false })) }
{
    let mark = Mark {
        instant: 0,
        holds: false,
    };
    vec![in alloc; mark; slots]
}
