//! The end of a link into which items go.

ghost use Rattle.std.specs.Prelude.{◌≡◌, ◌≢◌, ◌≤◌, ◌<◌, ◌+◌, ◌-◌, ◌*◌, [], ◌∷◌, ◌++◌, take, IsFalse, IsTrue, OnErr, OnOk};
ghost use Rattle.sig_chunk.specs.Chunks.{AreSmall};
ghost use Rattle.sig_link.specs.Ends as link;

use crate::chunk::{Chunk, MOST_ITEMS};
use sig_base::Full;
use sig_link::Put;
use std::sync::Wait;

/// The end of a link into which items go: some of them it holds, until they are a chunk. It may be moved to
/// another thread.
#[derive(Drop)]
pub struct Inlet {
    pub(crate) put: Put<Chunk>,
    /// The items that it holds stand first.
    pub(crate) items: [i64; MOST_ITEMS],
    pub(crate) count: u32,
    /// How many items are a chunk.
    pub(crate) size: u32,
    pub(crate) capacity: u32,
    ghost few: { size ≤ 8 },
    ghost holds: { count < size },
    ghost room: { size * link.put_capacity put + (size - 1) + (size - 1) ≤ capacity },
    ghost small: { AreSmall size (link.sent put) },
}

impl Inlet {
    ghost use Rattle.sig_chunk.specs.Ends.{put_capacity, sent, held, times_full, FoundFull, IsSameInlet};

    /// How many items the link holds at most, those at both ends among them.
    pub fn capacity(&self) -> u32
        ensures { result ≡ put_capacity self.now }
    {
        self.capacity
    }

    /// Whether it holds items that it has not handed over.
    pub fn holds(&self) -> bool
        ensures some { IsTrue result → held self.now ≢ [] }
        ensures none { IsFalse result → held self.now ≡ [] }
    {
        self.count > 0
    }

    /// Puts the item last of what was sent, and hands a chunk over where it is the last of one. `Full` comes only
    /// where the queue was full of chunks at a step of this call, which is counted; nothing else then changed. It
    /// may wait for the other end to end a step.
    pub fn push<R: Wait>(&mut self, rt: &R, item: i64) -> Result<(), Full>
        ensures end { IsSameInlet self.old self.new }
        ensures ok { OnOk result (sent self.new ≡ sent self.old ++ item ∷ []) }
        ensures uncounted { OnOk result (times_full self.new ≡ times_full self.old) }
        ensures full { OnErr result (FoundFull self.old self.new) }
    {
        self.note(item);
        if self.count + 1 < self.size {
            self.count += 1;
            return Ok(());
        }
        let chunk = Chunk {
            items: self.items,
            count: self.count + 1,
        };
        self.put.push(rt, chunk)?;
        self.count = 0;
        Ok(())
    }

    /// Writes an item behind those that it holds.
    fn note(&mut self, item: i64)
        ensures items { take (self.old.count + 1) self.new.items ≡ take self.old.count self.old.items ++ item ∷ [] }
        ensures held { take self.old.count self.new.items ≡ take self.old.count self.old.items }
        ensures rest { self.new ≡ record self.old { items = self.new.items } }
    {
        self.items[self.count as usize] = item;
    }

    /// Hands over what it holds, and tells whether it holds nothing any more: it still does only where the queue was
    /// full of chunks at a step of this call, which is counted; nothing else then changed. It may wait for the other
    /// end to end a step.
    pub fn hand_over<R: Wait>(&mut self, rt: &R) -> bool
        ensures end { IsSameInlet self.old self.new }
        ensures sent { sent self.new ≡ sent self.old }
        ensures handed { IsTrue result → held self.new ≡ [] }
        ensures full { IsFalse result → FoundFull self.old self.new }
    {
        if self.count == 0 {
            return true;
        }
        let chunk = Chunk {
            items: self.items,
            count: self.count,
        };
        match self.put.push(rt, chunk) {
            Ok(()) => {
                self.count = 0;
                true
            }
            Err(Full) => false,
        }
    }
}
