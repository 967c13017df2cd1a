//! The rule of a link as laws, over every state that meets it.

ghost use Rattle.std.specs.Prelude.{◌≡◌, ℕ, true, false, List, [], ◌∷◌, ◌++◌};
ghost use Rattle.crossbeam_queue.specs.Fifo.{Forks, Learns, Merges, Pops, Pushes};
ghost use Rattle.sig_link.specs.Rule.{hand, InOrder, TakenIsPrefix};
ghost use Rattle.sig_link.specs.declared.rule.Hand.{Hand};

use super::put::Put;
use super::take::Take;

/// A law: wherever the rule holds, what was taken is a prefix of what was sent.
pub fn taken_is_a_prefix<T>()
    ensures { (queue : List T) (hands : List (Hand T)) → InOrder queue hands → TakenIsPrefix hands }
{}

/// A law: each kind of step keeps the rule, whatever the queue holds and whatever the other end
/// knows. A push that finds no room and a pop that finds no item change nothing, and learn that what
/// was taken, followed by the queue, is what was sent.
pub fn steps_keep_the_rule<T>()
    ensures making { InOrder {T = T} [] (hand true true [] [] ∷ []) }
    ensures second_end { (number : ℕ) (h : Hand T) → h.puts ≡ true → h.takes ≡ true →
        Forks InOrder number h (hand true false h.sent []) (hand false true [] h.taken) }
    ensures push { (capacity number : ℕ) (h : Hand T) (x : T) → h.puts ≡ true →
        Pushes InOrder capacity number h x
        (λ after. after ≡ hand h.puts h.takes (h.sent ++ x ∷ []) h.taken) }
    ensures push_full { (number : ℕ) (h : Hand T) → h.puts ≡ true →
        Learns InOrder number h (λ queue. (taken : List T) × (h.sent ≡ taken ++ queue)) }
    ensures pop { (number : ℕ) (h : Hand T) → h.takes ≡ true →
        Pops InOrder number h (λ x after. after ≡ hand h.puts h.takes h.sent (h.taken ++ x ∷ [])) }
    ensures pop_empty { (number : ℕ) (h : Hand T) → h.takes ≡ true →
        Learns InOrder number h (λ queue. (sent : List T) × (sent ≡ h.taken ++ queue)) }
    ensures settling { (number : ℕ) (p : Hand T) (other : ℕ) (t : Hand T) →
        p.puts ≡ true → t.takes ≡ true →
        Merges InOrder number p other t (hand true true p.sent t.taken) (hand false false [] []) }
    ensures settled { (number : ℕ) (h : Hand T) → h.puts ≡ true → h.takes ≡ true →
        Learns InOrder number h (λ queue. h.sent ≡ h.taken ++ queue) }
{}

/// A law: both ends may be moved to another thread.
pub fn ends_may_be_moved<T: Send>() {
    may_be_moved::<Put<T>>();
    may_be_moved::<Take<T>>();
}

fn may_be_moved<T: Send>() {}
