//! The state of all actors.

use crate::lists::Lists;
use sig_flow::OutputLines;
use sig_kernel::Inputs;
use sig_plan::Plan;
use sig_step::ClusterState;

/// All actors of a plan, their links and the failure word. Of the committed reactions it knows the number,
/// by the instant of the collector.
#[derive(Drop)]
pub struct Core<'a> {
    pub(crate) plan: &'a Plan,
    pub(crate) inputs: &'a Inputs,
    pub(crate) capacity: u32,
    pub(crate) limit: u32,
    pub(crate) states: Vec<ClusterState>,
    pub(crate) lists: Lists,
    /// Room for the text of a reaction.
    pub(crate) lines: OutputLines,
    /// The least place that was recorded, packed, or `u64::MAX`.
    pub(crate) word: u64,
}
