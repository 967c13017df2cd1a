//! The failure word: its making and its closing.

ghost use Rattle.std.specs.Prelude.{◌≡◌};
ghost use Rattle.sig_halt.specs.declared.halt.HaltAnswer.TheVariants.{OutOfMemory};

use super::halt_seat::HaltSeat;
use super::resting::Beds;
use super::rule::Word;
use std::alloc::{AllocError, Global};
use thiserror::Error;

/// The refusal of [`Halt::new`].
#[derive(Clone, Copy, Debug, PartialEq, Eq, Error)]
pub enum HaltAnswer {
    /// Memory was wanting.
    #[error("out of memory")]
    OutOfMemory,
}

impl From<AllocError> for HaltAnswer {
    ghost from_gives = { λ _ answer. answer ≡ OutOfMemory };

    fn from(_error: AllocError) -> HaltAnswer {
        HaltAnswer::OutOfMemory
    }
}

/// The failure word. Threads share it by reference.
#[derive(Drop)]
pub struct Halt {
    pub(crate) table: Word,
    /// Where threads rest that find nothing to do.
    pub(crate) beds: Beds,
    ghost one_word: { table.shared.table_id.words ≡ 1 },
    ghost no_slots: { table.shared.table_id.slots ≡ 0 },
}

impl Halt {
    ghost use Rattle.std.specs.Prelude.{◌≤◌, IfOk};
    ghost use Rattle.sig_base.specs.Places.{no_place};
    ghost use Rattle.sig_halt.specs.Seats.{halt_parts, parts as parts_of, recorded, seen, IsSeatOf};

    /// The word, with none, and a seat that holds all parts. Only memory can be wanting; no later
    /// call on the word takes any.
    pub fn new(alloc: Global, parts: u32) -> Result<(Halt, HaltSeat), HaltAnswer>
        requires { (1 ≤ parts) × (parts ≤ 65) }
        ensures word { IfOk result (λ made. IsSeatOf made.0 made.1 × (halt_parts made.0 ≡ parts)) }
        ensures all { IfOk result (λ made. parts_of made.1 ≡ parts) }
        ensures none { IfOk result (λ made. (recorded made.1 ≡ no_place) × (seen made.1 ≡ no_place)) }
    {
        let beds = Beds::new(alloc, parts)?;
        let (table, seat) = Word::of_words(alloc, &[u64::MAX], &parts)?;
        Ok((Halt { table, beds }, HaltSeat { seat }))
    }

    /// The last word, with the seat that holds all parts: the least packed place that this seat and
    /// those joined into it recorded, or `u64::MAX`. It is at most every word that they had seen.
    pub fn close(self, seat: HaltSeat) -> u64
        requires word { IsSeatOf self seat }
        requires all { parts_of seat ≡ halt_parts self }
        ensures least { result ≡ recorded seat }
        ensures seen { result ≤ seen seat }
    {
        let closed = self.table.close_with(seat.seat);
        let word = closed.word(0);
        closed.free();
        word
    }
}
