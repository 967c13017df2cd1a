//! The cause of a failure.

ghost use Rattle.std.specs.Prelude.{◌≡◌, slice_get};
ghost use Rattle.sig_step.specs.States.{IsStateOf, actor_of, cause_of, cause_of_op};

use crate::plans::{kernel_of, ops_of};
use crate::state::ClusterState;
use sig_base::OpId;
use sig_kernel::Inputs;
use sig_plan::{Cause, Plan, StepKind};

impl ClusterState {
    /// Why the operation of the actor's next step has no value; the limit where it has one, or where the
    /// step does no operation. It takes no memory.
    pub fn cause(&self, plan: &Plan, inputs: &Inputs) -> Cause
        requires { IsStateOf plan.now inputs.now self.now }
        ensures { result ≡ cause_of plan.now inputs.now self.now }
    {
        match self.next_step(plan).kind {
            StepKind::Do(o) => self.cause_of_op(plan, inputs, o),
            StepKind::Send(_)
            | StepKind::Receive(_)
            | StepKind::Report(_)
            | StepKind::Collect(_)
            | StepKind::Commit => Cause::Limit,
        }
    }

    /// Why an operation has no value; the limit where it has one.
    pub fn cause_of_op(&self, plan: &Plan, inputs: &Inputs, o: OpId) -> Cause
        ensures { result ≡ cause_of_op plan.now inputs.now (actor_of self.now) (slice_get plan.now.ops o.0) }
    {
        let Some(op) = ops_of(plan).get(o.0 as usize) else {
            return Cause::Limit;
        };
        match self.values.outcome(kernel_of(plan), inputs, op) {
            Ok(_) => Cause::Limit,
            Err(cause) => cause,
        }
    }
}
