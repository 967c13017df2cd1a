//! One actor of a share.

use crate::ends::LinkEnds;
use sig_base::Place;
use sig_flow::OutputLines;
use sig_step::ClusterState;

/// How an actor ended.
#[derive(Clone, Copy, Debug, PartialEq, Eq)]
pub enum Ending {
    /// Its operation at this place had no value.
    Failed(Place),
    /// It looked at the failure word, which was before its next place.
    Looked,
    /// Its next instant is past the limit.
    AtLimit,
    /// The sink of the share's thread failed.
    Faulted,
}

/// An actor with the ends of its links, and how it ended, once it has.
#[derive(Drop)]
pub struct Member {
    /// The actor: a cluster, or behind all of them the collector.
    pub(crate) number: u32,
    pub(crate) state: ClusterState,
    pub(crate) ends: LinkEnds,
    pub(crate) ending: Option<Ending>,
    /// The last instant at which it passed the gate, 0 before the first.
    pub(crate) passed: u32,
    /// Room for the lines of an instant, where the actor is the collector.
    pub(crate) lines: OutputLines,
}
