//! The seats of a failure word: looking at the word, recording a failure, splitting and joining.

ghost use Rattle.std.specs.Prelude.{◌≡◌, ◌≤◌, ◌-◌, ◌^◌, []};

use super::halt::Halt;
use super::rule::WordSeat;
use super::steps::{join_step, load_step, lower_step, split_step};
use sig_base::Place;

/// A seat of a failure word, with at least one part. It may be moved to another thread.
#[derive(Drop)]
pub struct HaltSeat {
    pub(crate) seat: WordSeat,
    ghost has_part: { 1 ≤ seat.me.0.parts },
    ghost within: { seat.me.0.recorded ≤ 2 ^ 64 - 1 },
    ghost no_slot: { seat.me.1 ≡ [] },
}

impl HaltSeat {
    ghost use Rattle.std.specs.Prelude.{◌≢◌, ◌+◌, min};
    ghost use Rattle.sig_base.specs.Places.{no_place, packed};
    ghost use Rattle.sig_halt.specs.Seats.{seat_id, parts, recorded, seen, IsSameSeat, IsSeatOf, IsAtMostKnown, Lowers};

    /// Splits off a seat that holds one part of this seat's. The new seat has recorded none and has
    /// seen what this seat has.
    pub fn seat(&mut self, halt: &Halt) -> HaltSeat
        requires word { IsSeatOf halt.now self.old }
        requires parts { 2 ≤ parts self.old }
        ensures kept { (seat_id self.new ≡ seat_id self.old) × (parts self.old ≡ parts self.new + 1) }
        ensures same { (recorded self.new ≡ recorded self.old) × (seen self.new ≡ seen self.old) }
        ensures word { IsSeatOf halt.now result × (parts result ≡ 1) }
        ensures knows { (recorded result ≡ no_place) × (seen result ≡ seen self.old) }
    {
        HaltSeat {
            seat: split_step(halt, &mut self.seat),
        }
    }

    /// The word at a step of this call: the least packed place that was recorded, or `u64::MAX`. It
    /// is at most every word that this seat had seen or recorded, and becomes the least that it has
    /// seen.
    pub fn look(&mut self, halt: &Halt) -> u64
        requires { IsSeatOf halt.now self.old }
        ensures seat { IsSameSeat self.old self.new × (recorded self.new ≡ recorded self.old) }
        ensures word { IsAtMostKnown result self.old × (seen self.new ≡ result) }
    {
        load_step(halt, &mut self.seat)
    }

    /// Lowers the word to the lesser of itself and the packed place, by one fetch_min. The seat has
    /// then recorded the place, and has seen the word as it then is.
    pub fn fail(&mut self, halt: &Halt, place: Place)
        requires word { IsSeatOf halt.now self.old }
        requires place { packed place ≢ no_place }
        ensures seat { IsSameSeat self.old self.new }
        ensures recorded { recorded self.new ≡ min (recorded self.old) (packed place) }
        ensures word { Lowers self.old (packed place) self.new }
    {
        lower_step(halt, &mut self.seat, place.pack());
    }

    /// Joins the other seat, with its parts, into this one: of what both recorded, and of what both
    /// have seen, this seat has the lesser.
    pub fn join(&mut self, halt: &Halt, other: HaltSeat)
        requires word { IsSeatOf halt.now self.old }
        requires other { IsSeatOf halt.now other }
        ensures word { seat_id self.new ≡ seat_id self.old }
        ensures parts { parts self.new ≡ parts self.old + parts other }
        ensures recorded { recorded self.new ≡ min (recorded self.old) (recorded other) }
        ensures seen { seen self.new ≡ min (seen self.old) (seen other) }
    {
        join_step(halt, &mut self.seat, other.seat);
    }
}
