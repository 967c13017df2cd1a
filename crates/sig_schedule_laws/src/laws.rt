//! Laws of all actors of an accepted plan, in any schedule: what each event keeps, and that events go on
//! until all actors have ended. The function of a law does nothing when it runs.

ghost use Rattle.std.specs.Prelude.{◌≡◌, ◌≤◌, ◌+◌, ◌*◌};
ghost use Rattle.sig_schedule_laws.specs.Prelude.{ℕ, List, length, Trace, AreFlowsFor, Core, Given, IsEnabled, IsFinished, after, opening, stepped, IsOnReference, IsReference, IsRunnable, Event, IsAccepted, PlanView};
ghost use Rattle.sig_schedule_laws.specs.Changes.{AllChange, all_gone, steps_in};
ghost use Rattle.sig_schedule_laws.specs.Soundness.{IsSound};

/// A law: an accepted plan has what the code of its actors asks of it.
pub fn accepted_plans_are_runnable()
    ensures { (plan : PlanView) → IsAccepted plan → IsRunnable plan }
{}

/// A law: the opening state of an accepted plan is on each extended reference of at least one instant.
pub fn the_opening_is_on_the_reference()
    ensures { (given : Given) → IsAccepted given.plan → (reference : Trace)
        → IsReference given.plan.kernel given.flows (length reference) reference → 1 ≤ length reference
        → IsOnReference given reference (opening given.plan) }
{}

/// A law: over flows that fit, and a reference of more instants than the limit, each event leaves a
/// state on the reference where it finds one.
pub fn events_keep_to_the_reference()
    ensures { (given : Given) → IsAccepted given.plan → AreFlowsFor given.plan.kernel given.flows
        → (reference : Trace) → given.limit + 1 ≤ length reference
        → (core : Core) → IsOnReference given reference core
        → (event : Event) → IsOnReference given reference (stepped given core event) }
{}

/// A law: so every interleaving of the actors leaves a state on the reference.
pub fn interleavings_stay_on_the_reference()
    ensures { (given : Given) → IsAccepted given.plan → AreFlowsFor given.plan.kernel given.flows
        → (reference : Trace) → IsReference given.plan.kernel given.flows (length reference) reference
        → given.limit + 1 ≤ length reference
        → (events : List Event) → IsOnReference given reference (after given events) }
{}

/// A law: no actor goes past an operation that has a fault, and the failure word names no instant past
/// the limit: each event keeps this, and it holds of every interleaving.
pub fn actors_go_past_no_fault()
    ensures event { (given : Given) → IsAccepted given.plan → AreFlowsFor given.plan.kernel given.flows
        → (reference : Trace) (core : Core) → IsOnReference given reference core → IsSound given reference core
        → (event : Event) → IsSound given reference (stepped given core event) }
    ensures interleaving { (given : Given) → IsAccepted given.plan → AreFlowsFor given.plan.kernel given.flows
        → (reference : Trace) → IsReference given.plan.kernel given.flows (length reference) reference
        → given.limit + 1 ≤ length reference
        → (events : List Event) → IsSound given reference (after given events) }
{}

/// A law: where each link holds an item at least, an event is enabled until all actors have ended, in a
/// state on the reference, and so behind every interleaving.
pub fn events_are_enabled_until_all_have_ended()
    ensures state { (given : Given) → IsAccepted given.plan → AreFlowsFor given.plan.kernel given.flows
        → (reference : Trace) → given.limit + 1 ≤ length reference → 1 ≤ given.capacity
        → (core : Core) → IsOnReference given reference core → (IsFinished core → ⊥)
        → (event : Event) × IsEnabled given core event }
    ensures interleaving { (given : Given) → IsAccepted given.plan → AreFlowsFor given.plan.kernel given.flows
        → 1 ≤ given.capacity → (events : List Event) → (IsFinished (after given events) → ⊥)
        → (event : Event) × IsEnabled given (after given events) event }
{}

/// A law: an event that changes the state moves one actor on by a step, or ends one. So no list of events
/// from the opening that each change it is longer than the steps of all codes, times the limit, and the
/// actors, nor is one from a state that has the actors of a reached one; and behind every interleaving no
/// more steps and ends are done than that.
pub fn lists_of_changes_are_bounded()
    ensures lists { (given : Given) → IsAccepted given.plan → (events : List Event)
        → AllChange given (opening given.plan) events
        → length events ≤ given.limit * steps_in given.plan.codes + length given.plan.codes }
    ensures behind { (given : Given) → IsAccepted given.plan → (before : List Event) (core : Core)
        → core.actors ≡ (after given before).actors → (events : List Event) → AllChange given core events
        → length events ≤ given.limit * steps_in given.plan.codes + length given.plan.codes }
    ensures changes { (given : Given) → IsAccepted given.plan → (events : List Event) (event : Event)
        → IsEnabled given (after given events) event
        → all_gone given.plan.codes (stepped given (after given events) event).actors
        ≡ all_gone given.plan.codes (after given events).actors + 1 }
    ensures within { (given : Given) → IsAccepted given.plan → (events : List Event)
        → all_gone given.plan.codes (after given events).actors
        ≤ given.limit * steps_in given.plan.codes + length given.plan.codes }
{}
