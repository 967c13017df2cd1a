//! The parts of an accepted plan.

ghost use Rattle.std.specs.Prelude.{◌≡◌, ◌<◌, ◌-◌, ◌^◌};
ghost use Rattle.sig_play_command.specs.Prelude.{length};

use sig_plan::Plan;

/// The number of the collector, which is the last actor of a plan.
pub(crate) fn collector_of(plan: &Plan) -> u32
    requires few { length plan.now.codes < 2 ^ 32 }
    ensures { result ≡ length plan.now.codes - 1 }
{
    plan.codes.len().saturating_sub(1) as u32
}
