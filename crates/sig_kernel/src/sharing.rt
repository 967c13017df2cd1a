//! What may be shared between threads, and moved to them.

use crate::flow::Inputs;
use crate::kernel::Kernel;

/// A law: kernels, and the flows of their inputs, may be shared between threads, and moved to them.
pub fn kernels_and_flows_may_be_shared() {
    may_be_shared::<Kernel>();
    may_be_shared::<Inputs>();
    may_be_moved::<Kernel>();
    may_be_moved::<Inputs>();
}

fn may_be_shared<T: Sync>() {}

fn may_be_moved<T: Send>() {}
