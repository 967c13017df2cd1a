//! The rule of the failure word as laws, over every state that meets it.

ghost use Rattle.std.specs.Prelude.{◌≡◌, ◌≤◌, ℕ, [], ◌∷◌, min};
ghost use Rattle.atomic_table.specs.Table.{opening, Allows, Joins, Me, Seen, Splits, State};
ghost use Rattle.sig_base.specs.Places.{no_place};
ghost use Rattle.sig_halt.specs.Rule.{failed, given, joined, kept, looked, sight, spent, IsBelow, IsLeast};
ghost use Rattle.sig_halt.specs.declared.rule.Sight.{Sight};

use super::halt::Halt;
use super::halt_seat::HaltSeat;

/// A law: each kind of step keeps the rule, whatever was recorded and whatever the other seats
/// know. At the closing, the word is what the seat with all parts recorded, and at most what it has
/// seen.
pub fn steps_keep_the_rule()
    ensures making { (parts : ℕ) →
        IsLeast parts (opening (no_place ∷ []) [] (sight parts no_place no_place)) }
    ensures split { (parts number : ℕ) (v : Sight) → 2 ≤ v.parts →
        Splits (IsLeast parts) number v (kept v) (given v) }
    ensures load { (parts slots number : ℕ) (me : Me (Unit {0}) Sight) →
        Allows (IsLeast parts) slots number me 0 (λ word. word)
        (λ found after. IsBelow found me.0 × (after ≡ (looked me.0 found, me.1))) }
    ensures fetch_min { (parts slots number place : ℕ) (me : Me (Unit {0}) Sight) → 1 ≤ me.0.parts →
        Allows (IsLeast parts) slots number me 0 (λ word. min word place)
        (λ found after. IsBelow found me.0 × (after ≡ (failed me.0 place found, me.1))) }
    ensures join { (parts number : ℕ) (v : Sight) (other : ℕ) (w : Sight) → 1 ≤ v.parts →
        Joins (IsLeast parts) number v other w (joined v w) spent }
    ensures close { (parts number : ℕ) (v : Sight) (s : State (Unit {0}) Sight) →
        v.parts ≡ parts → v.recorded ≤ no_place → Seen (IsLeast parts) number v s →
        (s.words ≡ v.recorded ∷ []) × (v.recorded ≤ v.seen) }
{}

/// A law: a word may be shared between threads, and its seats may be moved to them.
pub fn a_word_may_be_shared() {
    may_be_shared::<Halt>();
    may_be_moved::<Halt>();
    may_be_moved::<HaltSeat>();
}

fn may_be_shared<T: Sync>() {}

fn may_be_moved<T: Send>() {}
