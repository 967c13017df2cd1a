//! The limit of a text.

/// The most bytes of the text of a step.
pub const TEXT_BYTES: usize = 67_108_864;
