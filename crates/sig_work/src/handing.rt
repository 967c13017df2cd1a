//! The handing out of members to shares.

ghost use Rattle.std.specs.Prelude.{◌≡◌, ◌≤◌, ◌<◌, ◌+◌};
ghost use Rattle.sig_work.specs.Prelude.{ℕ, [], IfOk, length, slice_get, Some, no_place, IsSeatOf, parts, recorded};
ghost use Rattle.sig_work.specs.inner.Dealing.{AreHanded, AreNumbered, AreSeated, HasGiven, HaveRoom, share_for};

use crate::answer::DealAnswer;
use crate::member::Member;
use crate::share::Share;
use sig_halt::{Halt, HaltSeat};
use std::alloc::Global;

/// So many shares and one more, each with a seat and room for so many members, and with none yet.
pub(crate) fn seated(
    alloc: Global,
    halt: &Halt,
    mut seat: HaltSeat,
    served: usize,
    members: usize,
) -> Result<Vec<Share>, DealAnswer>
    requires word { IsSeatOf halt.now seat }
    requires few { served ≤ 64 }
    requires parts { parts seat ≡ served + 1 }
    requires none { recorded seat ≡ no_place }
    ensures { IfOk result (λ shares. AreSeated halt.now (served + 1) members shares.items) }
{
    let mut shares = Vec::with_capacity(alloc, served + 1)?;
    for _ in 0..served {
        shares.push(Share {
            members: Vec::with_capacity(alloc, members)?,
            seat: seat.seat(halt),
        })?;
    }
    shares.push(Share {
        members: Vec::with_capacity(alloc, members)?,
        seat,
    })?;
    Ok(shares)
}

/// Gives each member to its share: the last one to the last share, and the others in turn to those before.
pub(crate) fn hand_out(mut members: Vec<Member>, shares: &mut [Share])
    requires some { 0 < length shares.old }
    requires numbered { AreNumbered members.items }
    requires room { HaveRoom (length members.items) shares.old }
    ensures { AreHanded members.items shares.old shares.new }
{
    let served = shares.len() - 1;
    let last = members.len().saturating_sub(1);
    while let Some(member) = members.pop() {
        give(shares, share_for(served, last, members.len()), member);
    }
}

/// The number of the share of a member.
pub(crate) fn share_for(served: usize, last: usize, number: usize) -> usize
    ensures is { result ≡ share_for served last number }
    ensures within { result ≤ served }
{
    if number == last || served == 0 {
        served
    } else {
        number % served
    }
}

/// Gives a member to a share.
fn give(shares: &mut [Share], at: usize, member: Member)
    requires there { at < length shares.old }
    requires room { HaveRoom 1 shares.old }
    ensures { HasGiven shares.old shares.new at member }
{
    shares[at].members.push_reserved(member);
}
