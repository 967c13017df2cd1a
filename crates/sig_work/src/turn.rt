//! How long an actor waits before it asks a link of the collector again.

use std::hint;

/// How many instants an actor gains from one refusal to the next, where its turn is right, at least and at most.
const FEW_GAINED: u32 = 6;

pub(crate) const MANY_GAINED: u32 = 12;

/// How often it spins in the longest turn, which is some 8 microseconds.
const MOST_SPINS: u32 = 128;

/// The turn of an actor that a link of the collector refuses: none at first.
#[derive(Drop)]
pub(crate) struct Turn {
    /// How often it spins.
    spins: u32,
    /// The instant of the last refusal.
    instant: u32,
}

impl Turn {
    pub(crate) fn none() -> Turn {
        Turn {
            spins: 0,
            instant: 0,
        }
    }

    /// Waits behind a refusal at an instant: for twice as long as before where few instants were gained since the last
    /// one, and for half as long where many were.
    pub(crate) fn wait(&mut self, instant: u32) {
        let gained = instant.saturating_sub(self.instant);
        self.instant = instant;
        if gained < FEW_GAINED {
            self.spins = MOST_SPINS.min(self.spins.saturating_mul(2).max(1));
        } else if gained > MANY_GAINED {
            self.spins /= 2;
        }
        spin(self.spins);
    }
}

/// Spins so often.
pub(crate) fn spin(times: u32) {
    for _ in 0..times {
        hint::spin_loop();
    }
}
