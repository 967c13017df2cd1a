//! Laws of what actors put out. The function of a law does nothing when it runs.

ghost use Rattle.std.specs.Prelude.{◌≡◌, ◌⊎◌, ◌<◌, ◌≤◌, ◌+◌, ◌-◌, ◌++◌};
ghost use Rattle.sig_output_laws.specs.Prelude.{ℕ, List, None, Option, Some, length, slice_get, take, Actor, AreFlowsFor, Ended, Event, Given, IsAccepted, IsEnd, IsFinished, IsPrefixOf, IsReference, Place, Trace, after, flow_of};
ghost use Rattle.sig_output_laws.specs.Outputs.{IsWriter, put_out};

/// A law: what each actor has put out of a signal, after any interleaving, begins the flow of the signal in the
/// extended reference, which goes on where another cluster has failed. More events put out more, and take back
/// nothing.
pub fn outputs_begin_the_reference()
    ensures begins { (given : Given) → IsAccepted given.plan → AreFlowsFor given.plan.kernel given.flows
        → (reference : Trace) → IsReference given.plan.kernel given.flows (length reference) reference
        → given.limit + 1 ≤ length reference
        → (signal k : ℕ) (events : List Event) → IsPrefixOf (put_out given signal k events) (flow_of signal reference) }
    ensures grows { (given : Given) (signal k : ℕ) (events more : List Event)
        → IsPrefixOf (put_out given signal k events) (put_out given signal k (events ++ more)) }
{}

/// A law: so what an actor has put out of a signal and the flow of the signal in the longest trace begin one another.
pub fn outputs_and_the_longest_trace_begin_one_another()
    ensures { (given : Given) → IsAccepted given.plan → AreFlowsFor given.plan.kernel given.flows
        → (trace : Trace) (place : Option Place) (ended : Ended) → IsEnd given.plan given.flows given.limit trace place ended
        → (signal k : ℕ) (events : List Event)
        → IsPrefixOf (put_out given signal k events) (flow_of signal trace)
        ⊎ IsPrefixOf (flow_of signal trace) (put_out given signal k events) }
{}

/// A law: where no operation fails (a read of an exhausted input is a failure), and so the run ends by its limit,
/// what an actor has put out of a signal begins the flow of the signal in the longest trace.
pub fn outputs_begin_the_longest_trace_without_failures()
    ensures { (given : Given) → IsAccepted given.plan → AreFlowsFor given.plan.kernel given.flows
        → (trace : Trace) (ended : Ended) → IsEnd given.plan given.flows given.limit trace None ended
        → (signal k : ℕ) (events : List Event) → IsPrefixOf (put_out given signal k events) (flow_of signal trace) }
{}

/// A law: where all actors have ended, the actor that writes a signal has put out all of the signal's flow in the
/// longest trace, and no more than that where no operation fails.
pub fn ended_actors_have_put_out_the_longest_trace()
    ensures begins { (given : Given) → IsAccepted given.plan → AreFlowsFor given.plan.kernel given.flows
        → (events : List Event) → IsFinished (after given events)
        → (trace : Trace) (place : Option Place) (ended : Ended) → IsEnd given.plan given.flows given.limit trace place ended
        → (signal k : ℕ) → IsWriter given signal k → IsPrefixOf (flow_of signal trace) (put_out given signal k events) }
    ensures all { (given : Given) → IsAccepted given.plan → AreFlowsFor given.plan.kernel given.flows
        → (events : List Event) → IsFinished (after given events)
        → (trace : Trace) (ended : Ended) → IsEnd given.plan given.flows given.limit trace None ended
        → (signal k : ℕ) → IsWriter given signal k → put_out given signal k events ≡ flow_of signal trace }
{}

/// A law: with a collector, a cluster has finished at most as many instants more than are committed as a link
/// holds items, and one; and what it has put out is of these instants and the next one.
pub fn clusters_are_ahead_by_the_capacity()
    ensures instants { (given : Given) → IsAccepted given.plan → AreFlowsFor given.plan.kernel given.flows
        → (events : List Event) (k : ℕ) (actor : Actor) → k + 1 < length given.plan.codes
        → slice_get (after given events).actors k ≡ Some actor
        → actor.instant - 1 ≤ length (after given events).committed + given.capacity + 1 }
    ensures outputs { (given : Given) → IsAccepted given.plan → AreFlowsFor given.plan.kernel given.flows
        → (reference : Trace) → IsReference given.plan.kernel given.flows (length reference) reference
        → given.limit + 1 ≤ length reference
        → (events : List Event) (signal k : ℕ) → k + 1 < length given.plan.codes
        → IsPrefixOf (put_out given signal k events)
        (flow_of signal (take (length (after given events).committed + given.capacity + 2) reference)) }
{}
