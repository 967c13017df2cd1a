//! What may be shared between threads, and moved to them.

use crate::clocks::Clocks;

/// A law: clocks may be shared between threads, and moved to them.
pub fn clocks_may_be_shared() {
    may_be_shared::<Clocks>();
    may_be_moved::<Clocks>();
}

fn may_be_shared<T: Sync>() {}

fn may_be_moved<T: Send>() {}
