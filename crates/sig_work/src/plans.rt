//! The parts of a plan.

ghost use Rattle.std.specs.Prelude.{◌≡◌};
ghost use Rattle.sig_work.specs.Prelude.{outputs_of};

use sig_base::Signal;
use sig_plan::{LinkInfo, Plan};

/// The links of a plan.
pub(crate) fn links_in(plan: &Plan) -> &[LinkInfo]
    ensures { result.now ≡ plan.now.links }
{
    plan.links.as_slice()
}

/// The outputs of a plan, in the order of their declaration.
pub(crate) fn outputs_of(plan: &Plan) -> &[Signal]
    ensures { result.now ≡ outputs_of plan.now.kernel }
{
    let kernel = &plan.kernel;
    let (_, behind) = kernel.signals.as_slice().split_at(kernel.inputs as usize);
    let (outputs, _) = behind.split_at(kernel.outputs as usize);
    outputs
}
