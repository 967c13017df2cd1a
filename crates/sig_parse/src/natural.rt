//! The values of numbers.

ghost use Rattle.std.specs.Prelude.{◌<◌, ◌^◌};

/// The value of a number: at most 9223372036854775807.
#[derive(Clone, Copy, Drop)]
pub struct Natural {
    pub value: u64,
    ghost in_range: { value < 2 ^ 63 },
}
