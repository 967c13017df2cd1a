//! How a run ends.

use sig_base::{EqId, SigId};

/// Why a run ends: an input has no further value, the result of an equation is outside 64 bits, its
/// divisor is 0, or the limit of instants is reached.
#[derive(Clone, Copy, Debug, PartialEq, Eq)]
pub enum Cause {
    Exhausted(SigId),
    Overflow(EqId),
    ZeroDivisor(EqId),
    Limit,
}

/// The end of a run: how many instants were committed, and why there was no further one.
#[derive(Clone, Copy, Debug, PartialEq, Eq)]
pub struct Ended {
    pub instants: u32,
    pub cause: Cause,
}
