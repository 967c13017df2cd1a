//! Laws of what is committed in any schedule, and of the end of a run. The function of a law does nothing
//! when it runs.

ghost use Rattle.std.specs.Prelude.{◌≡◌, ◌+◌, ◌-◌};
ghost use Rattle.sig_schedule_laws.specs.Prelude.{ℕ, List, length, take, slice_get, Option, Some, IsPrefixOf, Trace, Place, output_text, AreFlowsFor, Actor, IsEnd, Core, Given, IsFinished, after, reactions_text, IsOnReference, reactions_of, Event, IsAccepted, Ended};
ghost use Rattle.sig_schedule_laws.specs.Endings.{HasEnd, IsNotBefore};
ghost use Rattle.sig_schedule_laws.specs.Soundness.{IsSound};

/// A law: the text that is committed is that of the instants before the collector's, and begins the text
/// of the reference.
pub fn committed_texts_begin_the_reference()
    ensures text { (given : Given) → IsAccepted given.plan → (reference : Trace) (core : Core)
        → IsOnReference given reference core
        → (collector : Actor) → slice_get core.actors (length given.plan.codes - 1) ≡ Some collector
        → reactions_text given.plan.kernel core.committed
        ≡ output_text given.plan.kernel (take (collector.instant - 1) reference) }
    ensures begins { (given : Given) → IsAccepted given.plan → (reference : Trace) (core : Core)
        → IsOnReference given reference core
        → IsPrefixOf (reactions_text given.plan.kernel core.committed) (output_text given.plan.kernel reference) }
{}

/// A law: in a sound state on a reference of one instant more than the limit, and so behind every
/// interleaving, what is committed begins the longest trace, and its text the text of that; and the
/// failure word is not before the place of the named cause.
pub fn states_begin_the_longest_trace()
    ensures reactions { (given : Given) → IsAccepted given.plan → AreFlowsFor given.plan.kernel given.flows
        → (reference : Trace) → length reference ≡ given.limit + 1
        → (core : Core) → IsOnReference given reference core → IsSound given reference core
        → (trace : Trace) (place : Option Place) (ended : Ended)
        → IsEnd given.plan given.flows given.limit trace place ended
        → IsPrefixOf core.committed (reactions_of given.plan.kernel trace) }
    ensures text { (given : Given) → IsAccepted given.plan → AreFlowsFor given.plan.kernel given.flows
        → (reference : Trace) → length reference ≡ given.limit + 1
        → (core : Core) → IsOnReference given reference core → IsSound given reference core
        → (trace : Trace) (place : Option Place) (ended : Ended)
        → IsEnd given.plan given.flows given.limit trace place ended
        → IsPrefixOf (reactions_text given.plan.kernel core.committed) (output_text given.plan.kernel trace) }
    ensures word { (given : Given) → IsAccepted given.plan → AreFlowsFor given.plan.kernel given.flows
        → (reference : Trace) → length reference ≡ given.limit + 1
        → (core : Core) → IsOnReference given reference core → IsSound given reference core
        → (trace : Trace) (place : Option Place) (ended : Ended)
        → IsEnd given.plan given.flows given.limit trace place ended → IsNotBefore place core.word }
    ensures interleaving { (given : Given) → IsAccepted given.plan → AreFlowsFor given.plan.kernel given.flows
        → (events : List Event) (trace : Trace) (place : Option Place) (ended : Ended)
        → IsEnd given.plan given.flows given.limit trace place ended
        → IsPrefixOf (reactions_text given.plan.kernel (after given events).committed) (output_text given.plan.kernel trace)
        × IsNotBefore place (after given events).word }
{}

/// A law: where all actors have ended, the reactions of the longest trace are committed, the failure word
/// is the place of the run's named cause, and names it; in a sound state on a reference of one instant
/// more than the limit, and so behind every interleaving.
pub fn finished_states_have_the_end()
    ensures state { (given : Given) → IsAccepted given.plan → AreFlowsFor given.plan.kernel given.flows
        → (reference : Trace) → length reference ≡ given.limit + 1
        → (core : Core) → IsOnReference given reference core → IsSound given reference core → IsFinished core
        → (trace : Trace) (place : Option Place) (ended : Ended)
        → IsEnd given.plan given.flows given.limit trace place ended → HasEnd given core trace place ended }
    ensures interleaving { (given : Given) → IsAccepted given.plan → AreFlowsFor given.plan.kernel given.flows
        → (events : List Event) → IsFinished (after given events)
        → (trace : Trace) (place : Option Place) (ended : Ended)
        → IsEnd given.plan given.flows given.limit trace place ended
        → HasEnd given (after given events) trace place ended }
{}
