//! How far clusters go ahead of the collector, where one thread serves both.

use crate::ends::LinkEnds;
use crate::member::Member;
use crate::share::Share;
use sig_plan::Plan;
use sig_step::actors_in;

/// Where the collector stands among shares, and how many instants a cluster of them may be ahead of it.
#[derive(Clone, Copy)]
pub(crate) struct Lead {
    /// The share of which the collector is the first actor; that of no share where it is in none.
    share: usize,
    /// As many as a link to it holds items.
    room: u32,
}

impl Lead {
    /// That of the thread that serves these shares.
    pub(crate) fn new(plan: &Plan, shares: &[Share]) -> Lead {
        let last = actors_in(plan).saturating_sub(1);
        for (number, share) in shares.iter().enumerate() {
            if let Some(member) = share.members.first() {
                if member.number as usize == last {
                    return Lead {
                        share: number,
                        room: member.ends.room(),
                    };
                }
            }
        }
        Lead {
            share: shares.len(),
            room: u32::MAX,
        }
    }

    /// The first instant that no cluster of these shares begins yet. Where the collector has ended, or is not among
    /// them, there is none.
    pub(crate) fn end(&self, shares: &[Share]) -> u32 {
        match self.collector(shares) {
            Some(collector) if !collector.state.ended() => {
                collector.state.instant().saturating_add(self.room)
            }
            _ => u32::MAX,
        }
    }

    fn collector<'a>(&self, shares: &'a [Share]) -> Option<&'a Member> {
        shares.get(self.share)?.members.first()
    }
}

impl LinkEnds {
    /// How many items the first link holds from which it takes.
    fn room(&self) -> u32 {
        for take in &self.takes {
            if let Some(take) = take {
                return take.capacity();
            }
        }
        u32::MAX
    }
}
