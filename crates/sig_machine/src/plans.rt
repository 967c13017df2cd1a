//! The parts of a plan.

ghost use Rattle.std.specs.Prelude.{◌≡◌, ◌<◌};
ghost use Rattle.sig_machine.specs.Prelude.{IfNone, IfSome, None, Some, length, slice_get, IsAccepted, StandsAt, code_of};
ghost use Rattle.sig_machine.specs.Lowerings.{HasShape};
ghost use Rattle.sig_machine.specs.inner.Works.{named};

use sig_base::{EqId, OpId, SigId};
use sig_dd::Store;
use sig_kernel::Kernel;
use sig_plan::{Cause, Op, Plan, Step};

/// A law: each plan is an accepted one.
pub(crate) fn plans_are_accepted(plan: &Plan)
    ensures { IsAccepted plan.now }
{
    // What holds of every plan is known where its fields are read.
    let _kernel = &plan.kernel;
}

/// The kernel of a plan.
pub(crate) fn kernel_of(plan: &Plan) -> &Kernel
    ensures kernel { result.now ≡ plan.now.kernel }
    ensures accepted { IsAccepted plan.now }
{
    &plan.kernel
}

/// The store of the guards of a plan.
pub(crate) fn store_of(plan: &Plan) -> &Store
    ensures store { result.now ≡ plan.now.store }
    ensures accepted { IsAccepted plan.now }
{
    &plan.store
}

/// The conditions of a plan.
pub(crate) fn conditions_of(plan: &Plan) -> &[SigId]
    ensures { result.now ≡ plan.now.clocks.conditions }
{
    plan.clocks.conditions.as_slice()
}

/// The order of the operations of a plan.
pub(crate) fn order_of(plan: &Plan) -> &[OpId]
    ensures { result.now ≡ plan.now.order }
{
    plan.order.as_slice()
}

/// The operations of a plan.
fn ops_of(plan: &Plan) -> &[Op]
    ensures ops { result.now ≡ plan.now.ops }
    ensures accepted { IsAccepted plan.now }
{
    plan.ops.as_slice()
}

/// The operation at a place of the order.
pub(crate) fn op_at(plan: &Plan, place: usize) -> &Op
    requires { place < length plan.now.order }
    ensures op { StandsAt plan.now place result.now }
    ensures shape { HasShape plan.now.kernel result.now }
{
    let order = order_of(plan);
    let ops = ops_of(plan);
    &ops[order[place].0 as usize]
}

/// The operation of a number, where there is one.
pub(crate) fn op_of(plan: &Plan, o: OpId) -> Option<&Op>
    ensures op { IfSome result (λ op. slice_get plan.now.ops o.0 ≡ Some op.now) }
    ensures shape { IfSome result (λ op. HasShape plan.now.kernel op.now) }
    ensures none { IfNone result (slice_get plan.now.ops o.0 ≡ None) }
{
    match ops_of(plan).get(o.0 as usize) {
        Some(op) => Some(op),
        None => None,
    }
}

/// The steps of the code of an actor.
pub(crate) fn steps_of(plan: &Plan, actor: u32) -> &[Step]
    requires { actor < length plan.now.codes }
    ensures { result.now ≡ (code_of plan.now actor).steps }
{
    plan.codes[actor as usize].steps()
}

/// A cause, with an equation in place of the one that it names.
pub(crate) fn named(number: Option<EqId>, cause: Cause) -> Cause
    ensures { result ≡ named number cause }
{
    let Some(e) = number else {
        return cause;
    };
    match cause {
        Cause::Overflow(_) => Cause::Overflow(e),
        Cause::ZeroDivisor(_) => Cause::ZeroDivisor(e),
        Cause::Exhausted(_) | Cause::Limit => cause,
    }
}
