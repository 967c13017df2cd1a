//! How the run of an image ends.

use sig_base::{SigId, Span};

/// Why the run of an image ended: an input had no further value, a result was outside 64 bits or a
/// divisor was 0, each at the place of its operation, or the limit of instants was reached.
#[derive(Clone, Copy, Debug, PartialEq, Eq)]
pub enum ImageCause {
    Exhausted(SigId),
    Overflow(Span),
    ZeroDivisor(Span),
    Limit,
}

/// The end of the run of an image: how many instants were committed, and the cause.
#[derive(Clone, Copy, Debug, PartialEq, Eq)]
pub struct ImageEnd {
    pub instants: u32,
    pub cause: ImageCause,
}
