//! Links in memory.

ghost use Rattle.std.specs.Prelude.{IfOk};
ghost use Rattle.sig_interleaving.specs.Lists.{AreEmpty};

use sig_base::Full;
use sig_step::Ends;
use std::alloc::{AllocError, Global};
use std::collections::VecDeque;

/// The items of each link. The room of a queue is the capacity of its link.
#[derive(Drop)]
pub(crate) struct Lists {
    pub(crate) queues: Vec<VecDeque<i64>>,
}

impl Lists {
    /// So many empty links of a capacity.
    pub(crate) fn new(alloc: Global, links: usize, capacity: usize) -> Result<Lists, AllocError>
        ensures { IfOk result (AreEmpty links capacity) }
    {
        let mut queues = Vec::with_capacity(alloc, links)?;
        for _ in 0..links {
            queues.push(VecDeque::with_capacity(alloc, capacity)?)?;
        }
        Ok(Lists { queues })
    }
}

impl Ends for Lists {
    ghost use Rattle.std.specs.Prelude.{◌≡◌};
    ghost use Rattle.sig_interleaving.specs.Prelude.{None, Some, length, range_with_len};
    ghost use Rattle.std.proofs.Common.{inr, refl};
    ghost use Rattle.sig_interleaving.specs.Lists.{IsFoundEmpty, IsFoundFull, queues_of};

    ghost past = { λ lists. None };

    ghost queues = { λ lists. Some (queues_of lists) };

    ghost pushes = { λ lists. range_with_len 0 (length lists.queues.items) };

    ghost pops = { λ lists. range_with_len 0 (length lists.queues.items) };

    ghost found_full = { IsFoundFull };

    ghost found_empty = { IsFoundEmpty };

    ghost tells = { λ lists. inr refl };

    ghost same = { λ old new. length new.queues.items ≡ length old.queues.items };

    ghost same_itself = { λ lists. refl };

    #[inline(always)]
    fn push(&mut self, link: u32, item: i64) -> Result<(), Full> {
        let queue = &mut self.queues[link as usize];
        if queue.len() >= queue.capacity() {
            return Err(Full);
        }
        queue.push_back_reserved(item);
        Ok(())
    }

    #[inline(always)]
    fn pop(&mut self, link: u32) -> Option<i64> {
        self.queues[link as usize].pop_front()
    }
}
