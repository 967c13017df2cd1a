//! How an actor of a share ends, but at the limit.

ghost use Rattle.std.specs.Prelude.{◌≡◌, ◌≢◌};
ghost use Rattle.sig_work.specs.Prelude.{ℕ, List, Some, min, true, no_place, packed, IsSeatOf, recorded, Given, Reaction};
ghost use Rattle.sig_work.specs.inner.Rounds.{HasStopped, IsPastZero, IsServed, KeepsMember, KeepsSeat};
ghost use Rattle.sig_work.specs.declared.member.Ending.TheVariants.{Failed};
ghost use Rattle.sig_work.specs.declared.round.Round.TheVariants.{Ended};

use crate::member::{Ending, Member};
use crate::round::Round;
use sig_base::Place;
use sig_halt::{Halt, HaltSeat};

impl Member {
    /// What a refusal of a link comes to, where this was the actor's step a stretch ago. It looks at the failure
    /// word, which ends it where that is before its next place.
    pub(crate) fn rest(&mut self, step: u32, halt: &Halt, seat: &mut HaltSeat) -> Round
        requires word { IsSeatOf halt.now seat.old }
        ensures keeps { KeepsMember self.old self.new }
        ensures seat { KeepsSeat seat.old seat.new }
        ensures ended { result ≡ Ended → self.new.state.ended ≡ true }
        ensures served { (given : Given) (others : ℕ) (committed : List Reaction) → IsServed given halt.now others committed self.old seat.old
            → IsServed given halt.now others committed self.new seat.new }
    {
        let moved = self.state.step() != step;
        let word = seat.look(halt);
        if self.state.look(word) {
            self.ending = Some(Ending::Looked);
            return Round::Ended;
        }
        Round::of_refused(moved)
    }

    /// Notes that the actor has failed at a place, which the seat records.
    pub(crate) fn fail(&mut self, halt: &Halt, seat: &mut HaltSeat, place: Place)
        requires word { IsSeatOf halt.now seat.old }
        requires place { packed place ≢ no_place }
        ensures member { self.new ≡ record self.old { ending = Some (Failed place) } }
        ensures seat { KeepsSeat seat.old seat.new }
        ensures least { recorded seat.new ≡ min (recorded seat.old) (packed place) }
    {
        seat.fail(halt, place);
        self.ending = Some(Ending::Failed(place));
        halt.wake();
    }

    /// Ends the actor where it runs, since the sink failed: by a look at a word below all places.
    pub(crate) fn stop(&mut self)
        requires { IsPastZero self.old }
        ensures { HasStopped self.old self.new }
    {
        if self.state.look(0) {
            self.ending = Some(Ending::Faulted);
        }
    }
}
