//! The end of a link that puts.

ghost use Rattle.std.specs.Prelude.{◌≡◌, ◌≤◌, [], ◌∷◌, ◌++◌, true, OnErr, OnOk};
ghost use Rattle.std.specs.Arc.{arc_value};
ghost use Rattle.crossbeam_utils.specs.Padded.{padded_value};
ghost use Rattle.crossbeam_queue.specs.Passes.{view, ruled_capacity, IsPassOf};

use super::rule::{Line, LinkPass};
use super::steps::push_step;
use crossbeam_utils::CachePadded;
use sig_base::Full;
use std::alloc::Global;
use std::sync::{Arc, Wait};

/// The end of a link that puts. It may be moved to another thread.
#[derive(Drop)]
pub struct Put<T> {
    pub(crate) line: Arc<CachePadded<Line<T>>, Global>,
    pub(crate) pass: LinkPass<T>,
    /// How many calls found the link full, up to the greatest number.
    pub(crate) times_full: u64,
    ghost fits: { IsPassOf (padded_value (arc_value line)) pass },
    ghost puts: { (view pass).puts ≡ true },
    ghost sized: { ruled_capacity (padded_value (arc_value line)) ≤ 65536 },
}

impl<T: Drop> Put<T> {
    ghost use Rattle.sig_link.specs.Ends.{put_capacity, sent, times_full, FoundFull, IsSamePut};

    /// How many items the link holds at most.
    pub fn capacity(&self) -> u32
        ensures { result ≡ put_capacity self.now }
    {
        self.line.capacity() as u32
    }

    /// Puts the item last of what was sent. `Full` comes only where the queue was full at a step of
    /// this call, which is counted; nothing else then changed. It may wait for the other end to end a
    /// step.
    pub fn push<R: Wait>(&mut self, rt: &R, item: T) -> Result<(), Full>
        ensures end { IsSamePut self.old self.new }
        ensures ok { OnOk result (sent self.new ≡ sent self.old ++ item ∷ []) }
        ensures uncounted { OnOk result (times_full self.new ≡ times_full self.old) }
        ensures full { OnErr result (FoundFull self.old self.new) }
    {
        let pushed = push_step(rt, &self.line, &mut self.pass, item);
        if pushed.is_err() {
            self.times_full = self.times_full.saturating_add(1);
        }
        pushed
    }
}
