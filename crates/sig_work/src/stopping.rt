//! The end of a service after a fault of the sink.

ghost use Rattle.std.specs.Prelude.{◌≡◌};
ghost use Rattle.sig_work.specs.Prelude.{IsSeatOf, ℕ, slice_get, Some};
ghost use Rattle.sig_work.specs.inner.Rounds.{ArePastZero, ShareStopped, SharesStopped};
ghost use Rattle.sig_work.specs.declared.share.Share.{Share};

use crate::share::Share;
use sig_base::Place;
use sig_halt::Halt;

impl Share {
    /// Ends the share's actors that run, and records the place (0, 0), which no operation has.
    fn stop(&mut self, halt: &Halt)
        requires word { IsSeatOf halt.now self.old.seat }
        requires past { ArePastZero self.old.members.items }
        ensures { ShareStopped self.old self.new }
    {
        self.seat.fail(halt, Place { instant: 0, pos: 0 });
        for member in self.members.iter_mut() {
            member.stop();
        }
    }
}

/// Ends all actors of these shares that run, and lowers the word below all places.
pub(crate) fn stop_all(halt: &Halt, shares: &mut [Share])
    requires word { (number : ℕ) (share : Share) → slice_get shares.old number ≡ Some share → IsSeatOf halt.now share.seat }
    requires past { (number : ℕ) (share : Share) → slice_get shares.old number ≡ Some share → ArePastZero share.members.items }
    ensures { SharesStopped shares.old shares.new }
{
    for share in shares.iter_mut() {
        share.stop(halt);
    }
}
