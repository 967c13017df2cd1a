//! The end of a link from which items come.

ghost use Rattle.std.specs.Prelude.{◌≡◌, ◌≤◌, ◌==◌, [], ◌∷◌, ◌++◌, IfNone, IfSome};
ghost use Rattle.sig_chunk.specs.Chunks.{IsOpened};
ghost use Rattle.sig_link.specs.Ends as link;

use crate::chunk::Chunk;
use sig_link::Take;
use std::sync::Wait;

/// The end of a link from which items come: it has taken a chunk, and gives its items one by one. It may be moved
/// to another thread.
#[derive(Drop)]
pub struct Outlet {
    pub(crate) take: Take<Chunk>,
    /// The chunk that was taken last.
    pub(crate) opened: Chunk,
    /// How many of its items were given.
    pub(crate) given: u32,
    pub(crate) capacity: u32,
    ghost within: { given ≤ opened.count },
    ghost last: { IsOpened (link.taken take) opened given },
}

impl Outlet {
    ghost use Rattle.sig_chunk.specs.Ends.{given, take_capacity, take_link, taken, times_empty, FoundEmpty};

    /// How many items the link holds at most, those at both ends among them.
    pub fn capacity(&self) -> u32
        ensures { result ≡ take_capacity self.now }
    {
        self.capacity
    }

    /// Whether the item that was given last was the first of a chunk.
    pub fn began_chunk(&self) -> bool
        ensures { result ≡ (given self.now == 1) }
    {
        self.given == 1
    }

    /// Takes the next item of what was sent. `None` comes only where nothing was left of a chunk, and the queue
    /// was empty at a step of this call, which is counted; nothing else then changed. It may wait for the other
    /// end to end a step.
    pub fn pop<R: Wait>(&mut self, rt: &R) -> Option<i64>
        ensures end { take_link self.new ≡ take_link self.old }
        ensures capacity { take_capacity self.new ≡ take_capacity self.old }
        ensures item { IfSome result (λ x. taken self.new ≡ taken self.old ++ x ∷ []) }
        ensures uncounted { IfSome result (λ x. times_empty self.new ≡ times_empty self.old) }
        ensures empty { IfNone result (FoundEmpty self.old self.new) }
    {
        if self.given < self.opened.count {
            let item = self.opened.item(self.given);
            self.given += 1;
            return Some(item);
        }
        let chunk = self.take.pop(rt)?;
        self.opened = chunk;
        self.given = 1;
        Some(chunk.item(0))
    }
}
