//! What may be shared between threads, and moved to them.

use crate::plan::Plan;

/// A law: plans may be shared between threads, and moved to them.
pub fn plans_may_be_shared() {
    may_be_shared::<Plan>();
    may_be_moved::<Plan>();
}

fn may_be_shared<T: Sync>() {}

fn may_be_moved<T: Send>() {}
