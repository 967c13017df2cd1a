//! What the kernel of a plan does.

ghost use Rattle.sig_back.specs.Reacting.{HasLongestTraces};
ghost use Rattle.sig_meaning_laws.specs.Reactions.{HasOneReaction};

use sig_meaning_laws::{accepted_plans_have_one_reaction, longest_traces_exist};
use sig_plan::Plan;

/// A law: the kernel of a plan has one reaction, and so longest traces.
pub(crate) fn plans_react(plan: &Plan)
    ensures one { HasOneReaction plan.now.kernel }
    ensures longest { HasLongestTraces plan.now.kernel }
{
    // What holds of every plan is known where its fields are read.
    let _kernel = &plan.kernel;
    accepted_plans_have_one_reaction();
    longest_traces_exist();
}
