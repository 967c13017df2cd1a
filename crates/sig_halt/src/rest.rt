//! The rest of a thread that finds nothing to do, until another one has done something.

use super::halt::Halt;
use super::resting::Bed;
use crossbeam_utils::sync::Key;
use std::sync::Wait;

/// A rest that was announced. Where the thread found something to do, it is given up.
#[derive(Drop)]
pub struct Rest<'a> {
    key: Key<'a>,
    bed: &'a Bed,
}

impl Halt {
    /// How many threads may rest in a bed of their own: as many as the word has parts.
    pub fn beds(&self) -> usize {
        self.beds.count()
    }

    /// Announces a rest, which `wake` alone ends. The thread then looks once more for something to do, and rests
    /// only where there is nothing.
    pub fn rest(&self) -> Rest<'_> {
        self.rest_in(self.beds.count(), None)
    }

    /// Announces a rest in a bed, which ends where that is told of a use of the link, or of any, too.
    pub fn rest_in(&self, bed: usize, link: Option<u32>) -> Rest<'_> {
        let bed = self.beds.bed(bed);
        bed.await_link(link);
        Rest {
            key: bed.resting.prepare_wait(),
            bed,
        }
    }

    /// Says that the thread to which the one bed belongs rests in the other.
    pub fn share_bed(&self, bed: usize, with: u32) {
        self.beds.share(bed, with);
    }

    /// Notes that an item went into a link, or out of it, where the thread at the other end has this bed. What
    /// that may do is done before, and `tell` is called behind it.
    pub fn note(&self, bed: usize, link: u32) {
        self.beds.owe(bed, link);
    }

    /// Ends the rests of all that a link of theirs was noted for.
    pub fn tell(&self) {
        self.beds.pay();
    }

    /// Notes that all actors of so many beds have ended, and ends all rests that were announced before.
    pub fn leave(&self, beds: usize) {
        self.beds.leave(beds.min(u32::MAX as usize) as u32);
        self.beds.rouse();
    }

    /// Whether all actors of all beds have ended.
    pub fn all_left(&self) -> bool {
        self.beds.all_left()
    }

    /// Ends all rests that were announced before. It is called behind all that may give any other thread
    /// something to do.
    pub fn wake(&self) {
        self.beds.rouse();
    }
}

impl Rest<'_> {
    /// Blocks until a call that ends the rest, behind the announcement.
    pub fn sleep<R: Wait>(self, rt: &R) {
        let Rest { key, bed } = self;
        key.wait(rt);
        bed.leave();
    }

    /// Ends it unslept.
    pub fn give_up(self) {
        self.bed.leave();
    }
}
