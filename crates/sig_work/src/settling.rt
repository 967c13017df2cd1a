//! The settling of all links.

ghost use Rattle.std.specs.Prelude.{◌≡◌, ◌<◌, ℕ, length, slice_get, IfNone, IfSome, Some};
ghost use Rattle.sig_work.specs.inner.Among.{AreSingle};
ghost use Rattle.sig_work.specs.Gathered.{AreLinked};
ghost use Rattle.sig_work.specs.inner.Settling.{AreLeft, AreLeftEnds, AreSettledBelow, But, Each, From, HasNoPut, HasNoTake, HaveRoomFor, IsLeftShare, IsLinked, IsPutOf, IsSettledLink, IsTakeOf};
ghost use Rattle.sig_work.specs.declared.member.Member.{Member};

use crate::ends::LinkEnds;
use crate::finding::find;
use crate::plans::links_in;
use crate::share::Share;
use sig_chunk::{Inlet, Outlet, settle};
use sig_plan::{LinkInfo, Plan};
use std::sync::Wait;

/// Settles the links of a plan, whose ends the shares then have no longer.
pub(crate) fn settle_links<R: Wait>(rt: &R, plan: &Plan, mut shares: Vec<Share>) -> Vec<Share>
    requires linked { AreLinked plan.now.links shares.items }
    requires single { AreSingle shares.items }
    requires room { (link : ℕ) → link < length plan.now.links → HaveRoomFor link shares.items }
    ensures left { AreLeft (From (length plan.now.links)) (From (length plan.now.links)) shares.items result.items }
    ensures settled { AreSettledBelow (length plan.now.links) plan.now.links shares.items }
{
    settle_all(rt, links_in(plan), &mut shares);
    shares
}

/// Settles these links.
fn settle_all<R: Wait>(rt: &R, links: &[LinkInfo], shares: &mut [Share])
    requires linked { AreLinked links.now shares.old }
    requires single { AreSingle shares.old }
    requires room { (link : ℕ) → link < length links.now → HaveRoomFor link shares.old }
    ensures left { AreLeft (From (length links.now)) (From (length links.now)) shares.old shares.new }
    ensures settled { AreSettledBelow (length links.now) links.now shares.old }
{
    for (number, info) in links.iter().enumerate() {
        settle_link(rt, number, info, shares);
    }
}

/// Settles a link, whose ends the shares then have no longer.
fn settle_link<R: Wait>(rt: &R, number: usize, info: &LinkInfo, shares: &mut [Share])
    requires linked { IsLinked number info.now shares.old }
    requires single { AreSingle shares.old }
    requires room { HaveRoomFor number shares.old }
    ensures left { AreLeft (But number) (But number) shares.old shares.new }
    ensures settled { IsSettledLink shares.old number info.now }
{
    let Some(put) = put_of(shares, info.writer as usize, number) else {
        return;
    };
    let Some(take) = take_of(shares, info.reader as usize, number) else {
        return;
    };
    settle(rt, put, take);
}

/// Takes the end of a link that puts from its writer.
fn put_of(shares: &mut [Share], writer: usize, link: usize) -> Option<Inlet>
    requires single { AreSingle shares.old }
    requires room { HaveRoomFor link shares.old }
    ensures left { AreLeft (But link) Each shares.old shares.new }
    ensures some { IfSome result (IsPutOf shares.old writer link) }
    ensures none { IfNone result (HasNoPut shares.old writer link) }
{
    let spot = find(shares, writer)?;
    shares[spot.share].take_put(spot.member, link)
}

/// Takes the end of a link that takes from its reader.
fn take_of(shares: &mut [Share], reader: usize, link: usize) -> Option<Outlet>
    requires single { AreSingle shares.old }
    requires room { HaveRoomFor link shares.old }
    ensures left { AreLeft Each (But link) shares.old shares.new }
    ensures some { IfSome result (IsTakeOf shares.old reader link) }
    ensures none { IfNone result (HasNoTake shares.old reader link) }
{
    let spot = find(shares, reader)?;
    shares[spot.share].take_take(spot.member, link)
}

impl Share {
    /// Takes the end of a link that puts from a member.
    fn take_put(&mut self, number: usize, link: usize) -> Option<Inlet>
        requires there { number < length self.old.members.items }
        requires room { (m : Member) → slice_get self.old.members.items number ≡ Some m → link < length m.ends.puts.items }
        ensures left { IsLeftShare (But link) Each self.old self.new }
        ensures put { (m : Member) → slice_get self.old.members.items number ≡ Some m → slice_get m.ends.puts.items link ≡ Some result }
    {
        self.members[number].ends.take_put(link)
    }

    /// Takes the end of a link that takes from a member.
    fn take_take(&mut self, number: usize, link: usize) -> Option<Outlet>
        requires there { number < length self.old.members.items }
        requires room { (m : Member) → slice_get self.old.members.items number ≡ Some m → link < length m.ends.takes.items }
        ensures left { IsLeftShare Each (But link) self.old self.new }
        ensures take { (m : Member) → slice_get self.old.members.items number ≡ Some m → slice_get m.ends.takes.items link ≡ Some result }
    {
        self.members[number].ends.take_take(link)
    }
}

impl LinkEnds {
    /// Takes the end of a link that puts.
    fn take_put(&mut self, link: usize) -> Option<Inlet>
        requires { link < length self.old.puts.items }
        ensures left { AreLeftEnds (But link) Each self.old self.new }
        ensures put { slice_get self.old.puts.items link ≡ Some result }
    {
        self.puts[link].take()
    }

    /// Takes the end of a link that takes.
    fn take_take(&mut self, link: usize) -> Option<Outlet>
        requires { link < length self.old.takes.items }
        ensures left { AreLeftEnds Each (But link) self.old self.new }
        ensures take { slice_get self.old.takes.items link ≡ Some result }
    {
        self.takes[link].take()
    }
}
