//! Draws: pseudorandom numbers from a seed on.

ghost use Rattle.std.specs.Prelude.{◌≡◌, ◌/◌, ◌^◌};
ghost use Rattle.sig_load.specs.inner.Draws.{next_state};

/// The state of the draws, at first the seed.
#[derive(Clone, Copy, Debug)]
pub struct Draws {
    pub state: u64,
}

impl Draws {
    /// The next draw, below 2^32: the upper half of the next state of a linear congruential
    /// generator, with Knuth's multiplier for MMIX.
    pub fn draw(&mut self) -> u64
        ensures state { self.new.state ≡ next_state self.old.state }
        ensures drawn { result ≡ self.new.state / 2 ^ 32 }
    {
        self.state = self
            .state
            .wrapping_mul(6_364_136_223_846_793_005)
            .wrapping_add(1_442_695_040_888_963_407);
        self.state >> 32
    }
}
