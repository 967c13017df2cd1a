//! The failure word of all shares.

ghost use Rattle.std.specs.Prelude.{◌≡◌, ◌≤◌, ◌<◌, ◌^◌};
ghost use Rattle.sig_work.specs.Prelude.{length, sum_by, IsSeatOf, halt_parts, parts, place_of};
ghost use Rattle.sig_work.specs.Members.{failure_in, word_of};
ghost use Rattle.sig_work.specs.inner.Words.{AreSeatsOf, IsClosed, IsIn, IsJoined, IsLeastOf, IsLeastWord};

use crate::member::{Ending, Member};
use crate::share::Share;
use sig_halt::{Halt, HaltSeat};

/// The packed least place at which an actor failed, `u64::MAX` where none did.
pub(crate) fn least_failure(shares: &[Share]) -> u64
    ensures { IsLeastWord shares.now result }
{
    let mut least = u64::MAX;
    for share in shares {
        least = least.min(share.least_failure());
    }
    least
}

impl Share {
    /// The packed least place at which an actor of the share failed, `u64::MAX` where none did.
    fn least_failure(&self) -> u64
        ensures { IsLeastOf (IsIn self.now) result }
    {
        let mut least = u64::MAX;
        for member in &self.members {
            least = least.min(member.failure());
        }
        least
    }
}

impl Member {
    /// The packed place at which the actor failed, `u64::MAX` where it did not.
    fn failure(&self) -> u64
        ensures word { result ≡ word_of (failure_in self.now.ending) }
        ensures position { (place_of self.now.state).pos < 2 ^ 32 }
    {
        let _next = self.state.next_place();
        match self.ending {
            Some(Ending::Failed(place)) => place.pack(),
            Some(Ending::Looked | Ending::AtLimit | Ending::Faulted) | None => u64::MAX,
        }
    }
}

/// Joins the seats of all shares and closes the word.
pub(crate) fn close(halt: Halt, mut shares: Vec<Share>) -> u64
    requires some { 0 < length shares.items }
    requires seats { AreSeatsOf halt shares.items }
    requires parts { sum_by (λ share. parts share.seat) shares.items ≡ halt_parts halt }
    ensures { IsClosed shares.items result }
{
    let Some(last) = shares.pop() else {
        unreachable!()
    };
    let seat = joined(&halt, last.seat, shares);
    halt.close(seat)
}

/// A seat with those of these shares.
fn joined(halt: &Halt, mut seat: HaltSeat, mut shares: Vec<Share>) -> HaltSeat
    requires seat { IsSeatOf halt.now seat }
    requires seats { AreSeatsOf halt.now shares.items }
    ensures seat { IsSeatOf halt.now result }
    ensures joined { IsJoined seat result shares.items }
{
    while let Some(share) = shares.pop() {
        seat.join(halt, share.seat);
    }
    seat
}
