//! One step on the failure word, as a seat makes it.

ghost use Rattle.std.specs.Prelude.{◌≡◌, ◌≤◌, ℕ, []};
ghost use Rattle.sig_halt.specs.Rule.{failed, given, joined, kept, looked, IsBelow};
ghost use Rattle.sig_halt.specs.Seats.{halt_id};

use super::halt::Halt;
use super::rule::{Both, Failing, Looking, OnePart, WordSeat};

/// A seat gives up one part, and a new seat gets it.
pub fn split_step(halt: &Halt, seat: &mut WordSeat) -> WordSeat
    requires word { seat.old.table_id ≡ halt_id halt.now }
    requires parts { 2 ≤ seat.old.me.0.parts }
    ensures word { (seat.new.table_id ≡ seat.old.table_id) × (result.table_id ≡ seat.old.table_id) }
    ensures old { seat.new.me ≡ (kept seat.old.me.0, seat.old.me.1) }
    ensures new { result.me ≡ (given seat.old.me.0, []) }
{
    halt.table.shared.split_seat::<OnePart>(seat)
}

/// A load.
pub fn load_step(halt: &Halt, seat: &mut WordSeat) -> u64
    requires { seat.old.table_id ≡ halt_id halt.now }
    ensures word { seat.new.table_id ≡ seat.old.table_id }
    ensures found { IsBelow result seat.old.me.0 }
    ensures looked { seat.new.me ≡ (looked seat.old.me.0 result, seat.old.me.1) }
{
    halt.table.shared.load::<Looking>(seat, 0)
}

/// A fetch_min.
pub fn lower_step(halt: &Halt, seat: &mut WordSeat, place: u64)
    requires word { seat.old.table_id ≡ halt_id halt.now }
    requires parts { 1 ≤ seat.old.me.0.parts }
    ensures word { seat.new.table_id ≡ seat.old.table_id }
    ensures failed { (found : ℕ) × IsBelow found seat.old.me.0
        × (seat.new.me ≡ (failed seat.old.me.0 place found, seat.old.me.1)) }
{
    halt.table.shared.fetch_min::<Failing>(seat, 0, place);
}

/// A seat takes in another, which is spent.
pub fn join_step(halt: &Halt, seat: &mut WordSeat, other: WordSeat)
    requires word { seat.old.table_id ≡ halt_id halt.now }
    requires parts { 1 ≤ seat.old.me.0.parts }
    requires other { (other.table_id ≡ halt_id halt.now) × (other.me.1 ≡ []) }
    ensures word { seat.new.table_id ≡ seat.old.table_id }
    ensures joined { seat.new.me ≡ (joined seat.old.me.0 other.me.0, seat.old.me.1) }
{
    halt.table.shared.join_seat::<Both>(seat, other);
}
