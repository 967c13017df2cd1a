//! The cause that the failure word names.

ghost use Rattle.std.specs.Prelude.{◌≡◌};
ghost use Rattle.sig_work.specs.Prelude.{slice_get, IfNone, IfSome, None, Some, Core, cause_of, cause_of_op, Op};
ghost use Rattle.sig_work.specs.inner.Words.{HasActors, NamesCause};

use crate::finding::member_of;
use crate::share::Share;
use sig_base::{OpId, Place};
use sig_kernel::Inputs;
use sig_plan::{Cause, Plan};
use sig_step::{ops_of, order_of};

/// Why the operation at the place of a word has no value, at the actor that does it; the limit where it is
/// the word of no place.
pub(crate) fn cause_named(plan: &Plan, inputs: &Inputs, shares: &[Share], word: u64) -> Cause
    ensures { NamesCause plan.now inputs.now shares.now word result }
{
    if word == u64::MAX {
        return Cause::Limit;
    }
    cause_at(plan, inputs, shares, Place::unpack(word))
}

/// Why the operation at a place has no value.
fn cause_at(plan: &Plan, inputs: &Inputs, shares: &[Share], place: Place) -> Cause
    ensures { (core : Core) → HasActors shares.now core → result ≡ cause_of plan.now inputs.now core (Some place) }
{
    match order_of(plan).get(place.pos as usize / 2) {
        Some(o) => cause_of_number(plan, inputs, shares, *o),
        None => Cause::Limit,
    }
}

/// Why an operation has no value at the actor that does it.
fn cause_of_number(plan: &Plan, inputs: &Inputs, shares: &[Share], o: OpId) -> Cause
    ensures { (core : Core) → HasActors shares.now core → result ≡ cause_of_op plan.now inputs.now core (slice_get plan.now.ops o.0) }
{
    let Some(actor) = actor_of(plan, o) else {
        return Cause::Limit;
    };
    match member_of(shares, actor as usize) {
        Some(member) => member.state.cause_of_op(plan, inputs, o),
        None => Cause::Limit,
    }
}

/// The actor that does an operation, if there is such an operation.
fn actor_of(plan: &Plan, o: OpId) -> Option<u32>
    ensures some { IfSome result (λ actor. (op : Op) × (slice_get plan.now.ops o.0 ≡ Some op) × (op.actor ≡ actor)) }
    ensures none { IfNone result (slice_get plan.now.ops o.0 ≡ None) }
{
    match ops_of(plan).get(o.0 as usize) {
        Some(op) => Some(op.actor),
        None => None,
    }
}
