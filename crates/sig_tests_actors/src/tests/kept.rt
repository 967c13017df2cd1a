//! Link ends that keep what they get.

ghost use Rattle.std.specs.Prelude.{◌≡◌};

use sig_base::Full;
use sig_step::Ends;

/// Ends of so many links, which keep each item that is sent while they have room, and have none to give.
#[derive(Drop)]
pub struct Kept {
    pub links: usize,
    pub items: Vec<(u32, i64)>,
}

impl Ends for Kept {
    ghost use Rattle.std.specs.Prelude.{◌≤◌, length, vec_capacity, None, Some, ⊤};
    ghost use Rattle.std.proofs.Common.{inl, refl};
    ghost use Rattle.std.specs.List.{range_with_len};
    ghost use Rattle.sig_tests_actors.specs.Kept.{past_of};

    ghost past = { λ kept. Some (past_of kept.items.items) };

    ghost queues = { λ kept. None };

    ghost pushes = { λ kept. range_with_len 0 kept.links };

    ghost pops = { λ kept. range_with_len 0 kept.links };

    ghost found_full = { λ link old new. vec_capacity old.items ≤ length old.items.items };

    // None of its links ever has an item to give.
    ghost found_empty = { λ link old new. ⊤ };

    ghost tells = { λ kept. inl refl };

    ghost same = { λ old new. new.links ≡ old.links };

    ghost same_itself = { λ kept. refl };

    fn push(&mut self, link: u32, item: i64) -> Result<(), Full> {
        if self.items.len() >= self.items.capacity() {
            return Err(Full);
        }
        self.items.push_reserved((link, item));
        Ok(())
    }

    fn pop(&mut self, _link: u32) -> Option<i64> {
        None
    }
}
