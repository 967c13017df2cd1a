//! The making of all links, and the giving of their ends to the actors.

ghost use Rattle.std.specs.Prelude.{◌≡◌, ◌≤◌, ◌<◌};
ghost use Rattle.sig_work.specs.Prelude.{length, slice_get, OnOk, Some, put_capacity, sent, taken, OfOneLink};
ghost use Rattle.sig_work.specs.inner.Dealing.{AreJoined, HasGivenPut, HasGivenTake};
ghost use Rattle.sig_work.specs.inner.Settling.{AreLeftEnds, But, Each};
ghost use Rattle.sig_work.specs.declared.member.Member.{Member};

use crate::answer::DealAnswer;
use crate::circles::Circles;
use crate::ends::LinkEnds;
use crate::member::Member;
use crate::plans::links_in;
use sig_chunk::{Inlet, MOST_ITEMS, Outlet, chunked};
use sig_plan::{LinkInfo, Plan};
use sig_step::plans_are_accepted;
use std::alloc::Global;

/// Makes all links of a plan, and gives their ends to the members that write and read them.
pub(crate) fn join_all(
    alloc: Global,
    plan: &Plan,
    capacity: u32,
    members: &mut [Member],
) -> Result<(), DealAnswer>
    requires capacity { (1 ≤ capacity) × (capacity ≤ 65536) }
    requires count { length members.old ≡ length plan.now.codes }
    requires none { AreJoined plan.now.links capacity 0 members.old members.old }
    ensures { OnOk result (AreJoined plan.now.links capacity (length plan.now.links) members.old members.new) }
{
    plans_are_accepted(plan);
    let circles = Circles::of(alloc, plan)?;
    for (number, info) in links_in(plan).iter().enumerate() {
        let together = items_together(&circles, info);
        let (put, take) = chunked(alloc, capacity, together)?;
        give_put(members, info.writer as usize, number, put);
        give_take(members, info.reader as usize, number, take);
    }
    Ok(())
}

/// How many items of a link go together at most: one where clusters may wait for each other.
fn items_together(circles: &Circles, link: &LinkInfo) -> u32 {
    if circles.may_hold(link) {
        1
    } else {
        MOST_ITEMS as u32
    }
}

/// Gives an end that puts to a member.
fn give_put(members: &mut [Member], writer: usize, link: usize, put: Inlet)
    requires there { writer < length members.old }
    requires room { (m : Member) → slice_get members.old writer ≡ Some m → link < length m.ends.puts.items }
    ensures { HasGivenPut members.old members.new writer link put }
{
    members[writer].ends.give_put(link, put);
}

/// Gives an end that takes to a member.
fn give_take(members: &mut [Member], reader: usize, link: usize, take: Outlet)
    requires there { reader < length members.old }
    requires room { (m : Member) → slice_get members.old reader ≡ Some m → link < length m.ends.takes.items }
    ensures { HasGivenTake members.old members.new reader link take }
{
    members[reader].ends.give_take(link, take);
}

impl LinkEnds {
    fn give_put(&mut self, link: usize, put: Inlet)
        requires { link < length self.old.puts.items }
        ensures left { AreLeftEnds (But link) Each self.old self.new }
        ensures put { slice_get self.new.puts.items link ≡ Some (Some put) }
    {
        self.puts[link] = Some(put);
    }

    fn give_take(&mut self, link: usize, take: Outlet)
        requires { link < length self.old.takes.items }
        ensures left { AreLeftEnds Each (But link) self.old self.new }
        ensures take { slice_get self.new.takes.items link ≡ Some (Some take) }
    {
        self.takes[link] = Some(take);
    }
}
