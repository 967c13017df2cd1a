//! Laws of actors that did their own steps by themselves. The function of a law does nothing when it runs.

ghost use Rattle.std.specs.Prelude.{◌≡◌, ◌≤◌};
ghost use Rattle.sig_settling_laws.specs.Prelude.{ℕ, ℤ, List, Option, Place, AreFlowsFor, Actor, Given, IsFinished, after, Event, IsAccepted};
ghost use Rattle.sig_settling_laws.specs.OwnSteps.{Own};
ghost use Rattle.sig_settling_laws.specs.Settled.{ActInOrder, AreBalanced, AreSettled, HasActed, LookBehind, acts, collector_of};

/// A law: where each actor of an accepted plan did its own steps, and each link holds what was sent on it
/// and not taken, there are steps of the actors, one at a time, that come to the same.
pub fn own_steps_are_an_interleaving()
    ensures { (given : Given) → IsAccepted given.plan → AreFlowsFor given.plan.kernel given.flows → 1 ≤ given.capacity
        → (own : ℕ → Own) (links : List (List ℤ)) → AreBalanced given own links
        → (numbers : List ℕ) × HasActed given own links (after given (acts numbers)) }
{}

/// A law: and where all of them have ended, by themselves or by a look at the word, which is the least place
/// at which one failed, there is an interleaving that leaves exactly this, and has ended too.
pub fn settled_actors_are_finished()
    ensures { (given : Given) → IsAccepted given.plan → AreFlowsFor given.plan.kernel given.flows → 1 ≤ given.capacity
        → (own : ℕ → Own) (links : List (List ℤ)) (word : Option Place) (actors : List Actor) → AreSettled given own links word actors
        → (events : List Event)
        × (after given events ≡ record { actors = actors; links = links; word = word; committed = (own (collector_of given)).committed })
        × IsFinished (after given events) }
{}

/// A law: both by one list, the steps of the actors in the order of their places, at one place those that send
/// or report before those that receive or collect. Each own step of an actor is in it once, and each changes the
/// state. These steps alone come to what each actor did; where all have ended, by themselves or by a look at the
/// word, the steps and then looks, each of which changes the state, leave exactly this.
pub fn settled_actors_have_acted_in_order()
    ensures { (given : Given) → IsAccepted given.plan → AreFlowsFor given.plan.kernel given.flows → 1 ≤ given.capacity
        → (own : ℕ → Own) (links : List (List ℤ)) → AreBalanced given own links
        → (numbers : List ℕ) × ActInOrder given own links numbers
        × ((word : Option Place) (actors : List Actor) → AreSettled given own links word actors
        → (lookers : List ℕ) × LookBehind given own links word actors numbers lookers) }
{}
