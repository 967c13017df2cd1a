//! The parts of a plan.

ghost use Rattle.std.specs.Prelude.{◌≡◌};
ghost use Rattle.sig_interleaving.specs.Prelude.{length};

use sig_plan::Plan;

/// How many links a plan has.
pub(crate) fn links_in(plan: &Plan) -> usize
    ensures { result ≡ length plan.now.links }
{
    plan.links.len()
}
