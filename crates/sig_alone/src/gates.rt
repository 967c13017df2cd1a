//! The gate of a run on one thread.

use sig_plan::Plan;
use sig_text::Gate;

/// A gate that is open to all.
pub(crate) struct Open;

impl Gate for Open {
    fn pass(&self, _cluster: u32, _instant: u32) {}
}

/// Each cluster of a plan passes the gate at this instant.
pub(crate) fn pass_all<G: Gate>(plan: &Plan, gate: &G, instant: u32) {
    // One code is the collector's, which passes no gate.
    for (cluster, _) in (0..u32::MAX).zip(plan.codes.iter().skip(1)) {
        gate.pass(cluster, instant);
    }
}
