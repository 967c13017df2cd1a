//! The parts of a plan.

ghost use Rattle.std.specs.Prelude.{◌≡◌, ◌<◌};
ghost use Rattle.sig_step.specs.Prelude.{length, slice_get, code_of, carried, IsAccepted};
ghost use Rattle.sig_step.specs.Moving.{CanRun};

use sig_base::{OpId, SigId};
use sig_kernel::Kernel;
use sig_plan::{Code, Op, Plan};
use sig_schedule_laws::accepted_plans_are_runnable;

/// A law: each plan can be run.
pub(crate) fn plans_can_run(plan: &Plan)
    ensures { CanRun plan.now }
{
    accepted_plans_are_runnable();
    kernel_of(plan);
}

/// The kernel of a plan.
pub(crate) fn kernel_of(plan: &Plan) -> &Kernel
    ensures kernel { result.now ≡ plan.now.kernel }
    ensures accepted { IsAccepted plan.now }
{
    &plan.kernel
}

/// A law: each plan is an accepted one.
#[inline(always)]
pub fn plans_are_accepted(plan: &Plan)
    ensures { IsAccepted plan.now }
{
    // What holds of every plan is known where its fields are read.
    let _kernel = &plan.kernel;
}

/// How many actors a plan has; the collector is the last.
pub fn actors_in(plan: &Plan) -> usize
    ensures { result ≡ length plan.now.codes }
{
    plan.codes.len()
}

/// The order of the operations of a plan.
pub fn order_of(plan: &Plan) -> &[OpId]
    ensures { result.now ≡ plan.now.order }
{
    plan.order.as_slice()
}

/// The operations of a plan.
pub fn ops_of(plan: &Plan) -> &[Op]
    ensures { result.now ≡ plan.now.ops }
{
    plan.ops.as_slice()
}

/// The code of an actor.
#[inline(always)]
pub(crate) fn code_at(plan: &Plan, actor: u32) -> &Code
    requires { actor < length plan.now.codes }
    ensures { result.now ≡ code_of plan.now actor }
{
    &plan.codes[actor as usize]
}

/// The signal that a link carries, where it carries one.
#[inline(always)]
pub(crate) fn carried(plan: &Plan, link: u32) -> Option<SigId>
    ensures { result ≡ carried plan.now.links link }
{
    match plan.links.get(link as usize) {
        Some(link) => link.signal,
        None => None,
    }
}
