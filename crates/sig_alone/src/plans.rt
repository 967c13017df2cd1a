//! Plans.

ghost use Rattle.sig_alone.specs.Prelude.{IsAccepted};

use sig_plan::Plan;

/// A law: each plan is an accepted one.
pub(crate) fn plans_are_accepted(plan: &Plan)
    ensures { IsAccepted plan.now }
{
    // What holds of every plan is known where its fields are read.
    let _kernel = &plan.kernel;
}
