//! The end of a link that takes.

ghost use Rattle.std.specs.Prelude.{◌≡◌, ◌≤◌, [], ◌∷◌, ◌++◌, true, IfNone, IfSome};
ghost use Rattle.std.specs.Arc.{arc_value};
ghost use Rattle.crossbeam_utils.specs.Padded.{padded_value};
ghost use Rattle.crossbeam_queue.specs.Passes.{view, ruled_capacity, IsPassOf};

use super::rule::{Line, LinkPass};
use super::steps::pop_step;
use crossbeam_utils::CachePadded;
use std::alloc::Global;
use std::sync::{Arc, Wait};

/// The end of a link that takes. It may be moved to another thread.
#[derive(Drop)]
pub struct Take<T> {
    pub(crate) line: Arc<CachePadded<Line<T>>, Global>,
    pub(crate) pass: LinkPass<T>,
    /// How many calls found the link empty, up to the greatest number.
    pub(crate) times_empty: u64,
    ghost fits: { IsPassOf (padded_value (arc_value line)) pass },
    ghost takes: { (view pass).takes ≡ true },
    ghost sized: { ruled_capacity (padded_value (arc_value line)) ≤ 65536 },
}

impl<T: Drop> Take<T> {
    ghost use Rattle.sig_link.specs.Ends.{take_capacity, take_link, taken, times_empty, FoundEmpty};

    /// How many items the link holds at most.
    pub fn capacity(&self) -> u32
        ensures { result ≡ take_capacity self.now }
    {
        self.line.capacity() as u32
    }

    /// Takes the next item of what was sent. `None` comes only where the queue was empty at a step
    /// of this call, which is counted; nothing else then changed. It may wait for the other end to end
    /// a step.
    pub fn pop<R: Wait>(&mut self, rt: &R) -> Option<T>
        ensures end { take_link self.new ≡ take_link self.old }
        ensures item { IfSome result (λ x. taken self.new ≡ taken self.old ++ x ∷ []) }
        ensures uncounted { IfSome result (λ x. times_empty self.new ≡ times_empty self.old) }
        ensures empty { IfNone result (FoundEmpty self.old self.new) }
    {
        let popped = pop_step(rt, &self.line, &mut self.pass);
        if popped.is_none() {
            self.times_empty = self.times_empty.saturating_add(1);
        }
        popped
    }
}
