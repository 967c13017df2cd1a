//! Where the member of a number stands.

ghost use Rattle.std.specs.Prelude.{◌<◌, IfNone, IfSome, length};
ghost use Rattle.sig_work.specs.inner.Among.{HasNone, HasNoneIn, IsAmong, StandsAt, StandsIn};

use crate::member::Member;
use crate::share::Share;

/// Where a member stands: in which share, and as which of its members.
#[derive(Clone, Copy, Debug)]
pub(crate) struct Spot {
    pub(crate) share: usize,
    pub(crate) member: usize,
}

/// Where the member of this number stands, if one has it.
pub(crate) fn find(shares: &[Share], number: usize) -> Option<Spot>
    ensures within { IfSome result (λ spot. spot.share < length shares.now) }
    ensures some { IfSome result (StandsAt shares.now number) }
    ensures none { IfNone result (HasNone shares.now number) }
{
    for (at, share) in shares.iter().enumerate() {
        if let Some(member) = share.find(number) {
            return Some(Spot { share: at, member });
        }
    }
    None
}

/// The member of this number, if one has it.
pub(crate) fn member_of(shares: &[Share], number: usize) -> Option<&Member>
    ensures some { IfSome result (λ m. IsAmong shares.now number m.now) }
    ensures none { IfNone result (HasNone shares.now number) }
{
    let Spot { share, member } = find(shares, number)?;
    Some(&shares[share].members[member])
}

impl Share {
    /// Which member has this number, if one has it.
    fn find(&self, number: usize) -> Option<usize>
        ensures some { IfSome result (StandsIn self.now number) }
        ensures none { IfNone result (HasNoneIn self.now number) }
    {
        for (at, member) in self.members.iter().enumerate() {
            if member.number as usize == number {
                return Some(at);
            }
        }
        None
    }
}
