//! Where threads rest that find nothing to do: a bed for each part of the word, and one more.

use crossbeam_utils::CachePadded;
use crossbeam_utils::sync::EventCount;
use std::alloc::{AllocError, Global};
use std::sync::atomic::{AtomicBool, AtomicU32, Ordering};

/// What a bed waits for in which nobody rests.
const NO_LINK: u32 = u32::MAX;

/// What a bed waits for in which a thread rests that any link may help.
const ANY_LINK: u32 = u32::MAX - 1;

/// Where one thread rests.
#[derive(Drop)]
pub(crate) struct Bed {
    pub(crate) resting: EventCount,
    /// The link for which it rests.
    link: AtomicU32,
    /// The number of the bed in which the thread rests that has this one.
    used: AtomicU32,
    /// Whether its link was used since it was last told.
    owed: AtomicBool,
}

impl Bed {
    fn new(number: u32) -> Bed {
        Bed {
            resting: EventCount::new(),
            link: AtomicU32::new(NO_LINK),
            used: AtomicU32::new(number),
            owed: AtomicBool::new(false),
        }
    }

    /// A thread is about to rest until this link was used, or any.
    pub(crate) fn await_link(&self, link: Option<u32>) {
        self.link.store(link.unwrap_or(ANY_LINK), Ordering::SeqCst);
    }

    /// Nobody rests here any longer.
    pub(crate) fn leave(&self) {
        self.link.store(NO_LINK, Ordering::SeqCst);
    }

    /// Whether a thread rests here that the use of a link helps.
    fn waits_for(&self, link: u32) -> bool {
        let awaited = self.link.load(Ordering::SeqCst);
        awaited == link || awaited == ANY_LINK
    }

    /// Ends the rest of its thread, where a link was used for which that rests.
    fn pay(&self) {
        if self.owed.load(Ordering::SeqCst) {
            self.owed.store(false, Ordering::SeqCst);
            self.resting.notify_all();
        }
    }
}

/// The beds of all threads, each on cache lines of its own.
#[derive(Drop)]
pub(crate) struct Beds {
    /// One for a thread that has no number.
    common: CachePadded<Bed>,
    numbered: Vec<CachePadded<Bed>>,
    /// Whether some bed is owed a word.
    owing: CachePadded<AtomicBool>,
    /// How many of them are those of actors that have ended.
    left: CachePadded<AtomicU32>,
}

impl Beds {
    pub(crate) fn new(alloc: Global, count: u32) -> Result<Beds, AllocError> {
        let mut numbered = Vec::with_capacity(alloc, count as usize)?;
        for number in 0..count {
            numbered.push(CachePadded::new(Bed::new(number)))?;
        }
        Ok(Beds {
            common: CachePadded::new(Bed::new(u32::MAX)),
            numbered,
            owing: CachePadded::new(AtomicBool::new(false)),
            left: CachePadded::new(AtomicU32::new(0)),
        })
    }

    /// How many beds have a number.
    pub(crate) fn count(&self) -> usize {
        self.numbered.len()
    }

    /// The bed of a number, and the common one where there is none.
    pub(crate) fn bed(&self, number: usize) -> &Bed {
        match self.numbered.get(number) {
            Some(bed) => bed,
            None => &self.common,
        }
    }

    /// The thread that has this bed rests in the other one.
    pub(crate) fn share(&self, number: usize, with: u32) {
        self.bed(number).used.store(with, Ordering::SeqCst);
    }

    /// Notes that a link was used whose other end the thread has to which a bed belongs.
    pub(crate) fn owe(&self, number: usize, link: u32) {
        let used = self.bed(number).used.load(Ordering::SeqCst);
        let bed = self.bed(used as usize);
        if bed.waits_for(link) {
            bed.owed.store(true, Ordering::SeqCst);
            self.owing.store(true, Ordering::SeqCst);
        }
    }

    /// Ends the rests in all beds that are owed it.
    pub(crate) fn pay(&self) {
        if self.owing.load(Ordering::SeqCst) {
            self.owing.store(false, Ordering::SeqCst);
            self.common.pay();
            for bed in &self.numbered {
                bed.pay();
            }
        }
    }

    /// Notes that the actors of so many more beds have ended.
    pub(crate) fn leave(&self, count: u32) {
        self.left.fetch_add(count, Ordering::SeqCst);
    }

    /// Whether those of all have.
    pub(crate) fn all_left(&self) -> bool {
        self.left.load(Ordering::SeqCst) as usize >= self.numbered.len()
    }

    /// Ends all rests.
    pub(crate) fn rouse(&self) {
        self.common.resting.notify_all();
        for bed in &self.numbered {
            bed.resting.notify_all();
        }
    }
}
