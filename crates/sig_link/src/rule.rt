//! The rule of a link's queue, and what each step of an end does to what that end knows.

ghost use Rattle.std.specs.Prelude.{◌≡◌, true, false, [], ◌∷◌, ◌++◌, List};
ghost use Rattle.sig_link.specs.Rule.{hand};

use crossbeam_queue::protocol::{Join, Lesson, Outcome, Protocol, Split};
use crossbeam_queue::{Pass, RuledArrayQueue};
use std::collections::LinkedList;

/// What an end may do, put or take, and the items that it put and took. No value of it is made.
pub struct Hand<T> {
    pub puts: bool,
    pub takes: bool,
    pub sent: LinkedList<T>,
    pub taken: LinkedList<T>,
}

/// The rule: sent is taken, followed by the queue. The first hand may put and take.
pub struct Order;

impl<T> Protocol<T, Hand<T>> for Order {
    ghost use Rattle.std.specs.Prelude.{true, []};
    ghost use Rattle.sig_link.specs.Rule.{hand, InOrder};

    ghost holds = { InOrder };

    ghost first = { hand true true [] [] };
}

/// The queue of a link.
pub type Line<T> = RuledArrayQueue<T, Hand<T>, Order>;

/// What one end carries.
pub type LinkPass<T> = Pass<T, Hand<T>>;

/// The two ends of a new link: the first hand keeps the right to put, the second may take.
pub struct TwoEnds;

impl<T> Split<Hand<T>> for TwoEnds {
    ghost use Rattle.std.specs.Prelude.{true, false, []};
    ghost use Rattle.sig_link.specs.Rule.{hand};

    ghost left = { λ h. hand true false h.sent [] };

    ghost right = { λ h. hand false true [] h.taken };
}

/// The settling: one hand knows what was sent and what was taken, and the other is spent.
pub struct OneHand;

impl<T> Join<Hand<T>> for OneHand {
    ghost use Rattle.std.specs.Prelude.{true, false, []};
    ghost use Rattle.sig_link.specs.Rule.{hand};

    ghost both = { λ p t. hand true true p.sent t.taken };

    ghost spent = { hand false false [] [] };
}

/// A push: the item is last of what was sent. Where there is no room, what the queue holds follows
/// what was taken in what was sent.
pub struct Pushing;

impl<T> Outcome<T, Hand<T>> for Pushing {
    ghost then = { λ h x after. after ≡ hand h.puts h.takes (h.sent ++ x ∷ []) h.taken };
}

impl<T> Lesson<T, Hand<T>> for Pushing {
    ghost fact = { λ h queue. (taken : List T) × (h.sent ≡ taken ++ queue) };
}

/// A pop: the item is last of what was taken. Where there is none, what the queue holds follows
/// what was taken in what was sent.
pub struct Popping;

impl<T> Outcome<T, Hand<T>> for Popping {
    ghost then = { λ h x after. after ≡ hand h.puts h.takes h.sent (h.taken ++ x ∷ []) };
}

impl<T> Lesson<T, Hand<T>> for Popping {
    ghost fact = { λ h queue. (sent : List T) × (sent ≡ h.taken ++ queue) };
}

/// The settled link: what was sent is what was taken, followed by the queue.
pub struct Whole;

impl<T> Lesson<T, Hand<T>> for Whole {
    ghost fact = { λ h queue. h.sent ≡ h.taken ++ queue };
}
