//! The link ends of an actor.

ghost use Rattle.std.specs.Prelude.{◌≡◌, ◌⊎◌, ℕ, List, Option, Contains, IfNone, IsSome, OnErr};
ghost use Rattle.sig_step.specs.LinkEnds.{Asks, Past, Queues, asked_to_pop, asked_to_push};

use sig_base::Full;

/// Where an actor sends items and takes them, by the numbers of links. It tells what was sent and taken so
/// far, or what each link holds, and why a link refuses.
pub trait Ends {
    // What was sent and taken, where it tells that.
    ghost past: { Self → Option Past };

    // What each link holds, where it tells that.
    ghost queues: { Self → Option Queues };

    // The links to which it can push, and those from which it can pop.
    ghost pushes: { Self → List ℕ };

    ghost pops: { Self → List ℕ };

    // A link was found full, and one was found empty, at a step of the call that led from the one to the other.
    ghost found_full: { ℕ → Self → Self → Type 0 };

    ghost found_empty: { ℕ → Self → Self → Type 0 };

    // It tells one of the past and the queues.
    ghost tells: { (ends : Self) → IsSome (past ends) ⊎ IsSome (queues ends) };

    // Both are ends of the same links.
    ghost same: { Self → Self → Type 0 };

    ghost same_itself: { (ends : Self) → same ends ends };

    /// Sends an item on a link, unless that is found full.
    fn push(&mut self, link: u32, item: i64) -> Result<(), Full>
        requires end { Contains (pushes self.old) link }
        ensures asked { Asks past queues (asked_to_push link item result) self.old self.new }
        ensures full { OnErr result (found_full link self.old self.new) }
        ensures links { same self.old self.new }
        ensures pushes { pushes self.new ≡ pushes self.old }
        ensures pops { pops self.new ≡ pops self.old };

    /// Takes the first item of a link, unless that is found empty.
    fn pop(&mut self, link: u32) -> Option<i64>
        requires end { Contains (pops self.old) link }
        ensures asked { Asks past queues (asked_to_pop link result) self.old self.new }
        ensures empty { IfNone result (found_empty link self.old self.new) }
        ensures links { same self.old self.new }
        ensures pushes { pushes self.new ≡ pushes self.old }
        ensures pops { pops self.new ≡ pops self.old };
}
