//! The rule of the failure word, and what each step on it tells the seat that makes it.

ghost use Rattle.std.specs.Prelude.{◌≡◌};
ghost use Rattle.sig_halt.specs.Rule.{looked, failed, IsBelow};

use atomic_table::{Join, Play, Seat, Split, Table, TableRule};
use std::alloc::Global;

/// What a seat knows: its parts, the least word that it recorded, and the least word that it has
/// seen. No value of it is made.
pub struct Sight {
    pub parts: u64,
    pub recorded: u64,
    pub seen: u64,
}

/// The rule: the word is the least that was recorded. The key is the number of parts.
pub struct Least;

impl TableRule<(), Sight, u32> for Least {
    ghost use Rattle.sig_base.specs.Places.{no_place};
    ghost use Rattle.sig_halt.specs.Rule.{IsLeast, sight};

    ghost holds = { IsLeast };

    ghost first = { λ parts. sight parts no_place no_place };
}

/// The table of the one word.
pub type Word = Table<(), Sight, u32, Least, Global>;

/// What a thread steps with.
pub type WordSeat = Seat<(), Sight>;

/// A load: what it finds is the least word seen.
pub struct Looking;

impl Play<(), Sight> for Looking {
    ghost then = { λ step before found after. IsBelow found before.0
        × (after ≡ (looked before.0 found, before.1)) };
}

/// A fetch_min: the place is recorded, and the lesser of it and what was found is the least word
/// seen.
pub struct Failing;

impl Play<(), Sight> for Failing {
    ghost then = { λ step before found after. IsBelow found before.0
        × (after ≡ (failed before.0 step.first found, before.1)) };
}

/// A seat gives up one part, and a new one gets it.
pub struct OnePart;

impl Split<Sight> for OnePart {
    ghost use Rattle.sig_halt.specs.Rule.{kept, given};

    ghost left = { kept };

    ghost right = { given };
}

/// A seat takes in another, which is spent.
pub struct Both;

impl Join<Sight> for Both {
    ghost use Rattle.sig_halt.specs.Rule.{joined, spent};

    ghost both = { joined };

    ghost spent = { spent };
}
