//! The threads at the other ends of links.

use crate::handing::share_for;
use crate::member::Member;
use crate::plans::links_in;
use crate::share::Share;
use crate::turn::MANY_GAINED;
use sig_halt::Halt;
use sig_plan::{LinkInfo, Plan, StepKind};
use sig_step::actors_in;

/// The actors of a plan, each of which has the bed of its share at the failure word.
#[derive(Clone, Copy)]
pub(crate) struct Neighbours<'a> {
    pub(crate) plan: &'a Plan,
    pub(crate) halt: &'a Halt,
}

impl Neighbours<'_> {
    /// Notes that a chunk was handed over on a link, where it was: its reader may rest for that.
    pub(crate) fn note_put(&self, number: u32, put: bool) {
        if put {
            if let Some(link) = self.link(number) {
                self.halt.note(self.bed_of(link.reader), number);
            }
        }
    }

    /// Notes that a chunk was taken from a link, where it was: its writer may rest for that.
    pub(crate) fn note_take(&self, number: u32, taken: bool) {
        if taken {
            if let Some(link) = self.link(number) {
                self.halt.note(self.bed_of(link.writer), number);
            }
        }
    }

    fn link(&self, number: u32) -> Option<&LinkInfo> {
        links_in(self.plan).get(number as usize)
    }

    /// The bed of the share of an actor.
    fn bed_of(&self, actor: u32) -> usize {
        let served = self.halt.beds().saturating_sub(1);
        let last = actors_in(self.plan).saturating_sub(1);
        share_for(served, last, actor as usize)
    }

    /// The bed of the thread that serves these shares, that of the first of them, which from now on those of the
    /// others share.
    pub(crate) fn bed_for(&self, shares: &[Share]) -> usize {
        let bed = match shares.first() {
            Some(share) => self.bed_of_share(share),
            None => self.halt.beds(),
        };
        let with = bed.min(u32::MAX as usize) as u32;
        for share in shares {
            self.halt.share_bed(self.bed_of_share(share), with);
        }
        bed
    }

    fn bed_of_share(&self, share: &Share) -> usize {
        match share.members.first() {
            Some(member) => self.bed_of(member.number),
            None => self.halt.beds(),
        }
    }

    /// The link for which these shares wait, where they have one actor alone that holds no items.
    pub(crate) fn link_for(&self, shares: &[Share]) -> Option<u32> {
        let member = only_member(shares)?;
        if member.ends.holds {
            return None;
        }
        match self.next_of(member)? {
            StepKind::Send(link)
            | StepKind::Receive(link)
            | StepKind::Report(link)
            | StepKind::Collect(link) => Some(link),
            StepKind::Do(_) | StepKind::Commit => None,
        }
    }

    /// The instant of the actor of these shares, where they have one alone, and its next step uses a link to or from
    /// the collector with room for a turn.
    pub(crate) fn turn_of(&self, shares: &[Share]) -> Option<u32> {
        let member = only_member(shares)?;
        let room = match self.next_of(member)? {
            StepKind::Report(link) => member.ends.put_at(link)?.capacity(),
            StepKind::Collect(link) => member.ends.take_at(link)?.capacity(),
            StepKind::Send(_) | StepKind::Receive(_) | StepKind::Do(_) | StepKind::Commit => 0,
        };
        if room > MANY_GAINED {
            Some(member.state.instant())
        } else {
            None
        }
    }

    /// The instant of the first actor of these shares.
    pub(crate) fn instant_of(&self, shares: &[Share]) -> u32 {
        match first_member(shares) {
            Some(member) => member.state.instant(),
            None => 0,
        }
    }

    /// What the next step of an actor is.
    fn next_of(&self, member: &Member) -> Option<StepKind> {
        let plan = self.plan;
        let code = plan.codes.get(member.number as usize)?;
        Some(code.steps().get(member.state.step() as usize)?.kind)
    }
}

/// The actor of these shares, where they have one alone.
fn only_member(shares: &[Share]) -> Option<&Member> {
    let share = shares.first()?;
    let member = share.members.first()?;
    if shares.len() > 1 || share.members.len() > 1 {
        return None;
    }
    Some(member)
}

/// The first actor of these shares.
fn first_member(shares: &[Share]) -> Option<&Member> {
    shares.first()?.members.first()
}
