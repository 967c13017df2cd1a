//! What may be moved to another thread.

use crate::state::ClusterState;

/// A law: the state of an actor may be moved to another thread.
pub fn states_may_be_moved() {
    may_be_moved::<ClusterState>();
}

fn may_be_moved<T: Send>() {}
