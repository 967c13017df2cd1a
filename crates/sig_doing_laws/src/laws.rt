//! Laws of an actor that does all operations of an accepted plan, over flows that fit. The function of a
//! law does nothing when it runs.

ghost use Rattle.std.specs.Prelude.{◌≡◌, ◌≤◌, ◌<◌, ◌+◌, ◌++◌, ◌∷◌};
ghost use Rattle.sig_doing_laws.specs.Prelude.{[], ℕ, ℤ, true, false, List, length, None, Some, Instant, IsLongest, IsPrefixOf, Trace, seen_at, test, IsKernelTrace, instant_text, output_text, outputs_of, seen_lines, AreFlowsFor, Actor, opening_actor, truths_of, IsEnd, place_at, Faults, Gives, operated, outcome, IsReference, reaction_in, IsAccepted, PlanView, Cause, Limit, Ended, Op};
ghost use Rattle.sig_doing_laws.specs.Commits.{IsCommitted};
ghost use Rattle.sig_doing_laws.specs.Doing.{AreAlike, IsAmid, instant_behind, stepped};
ghost use Rattle.sig_doing_laws.specs.Places.{StandsAt};

/// A law: behind a committed trace the extended reference goes on by an instant.
pub fn next_instants_exist()
    ensures { (plan : PlanView) → IsAccepted plan → (flows : List (List ℤ)) → AreFlowsFor plan.kernel flows
        → (trace : Trace) → IsCommitted plan.kernel flows trace
        → (instant : Instant) × IsReference plan.kernel flows (length trace + 1) (trace ++ instant ∷ []) }
{}

/// A law: a run begins with no instant committed, and an actor as at the opening is amid the first
/// instant, before the first place.
pub fn runs_begin()
    ensures committed { (plan : PlanView) → IsAccepted plan → (flows : List (List ℤ)) → AreFlowsFor plan.kernel flows
        → IsCommitted plan.kernel flows [] }
    ensures amid { (plan : PlanView) → IsAccepted plan → (flows : List (List ℤ)) → AreFlowsFor plan.kernel flows
        → (instant : Instant) → IsReference plan.kernel flows 1 (instant ∷ [])
        → (actor : Actor) → AreAlike actor (opening_actor plan.kernel) → IsAmid plan flows [] instant actor }
{}

/// A law: where an actor is amid an instant, the guard of the operation at its place has the value by
/// the registers that it has by the instant.
pub fn guards_are_known()
    ensures { (plan : PlanView) → IsAccepted plan → (flows : List (List ℤ)) → AreFlowsFor plan.kernel flows
        → (trace : Trace) (instant : Instant) (actor : Actor) → IsAmid plan flows trace instant actor
        → (op : Op) → StandsAt plan actor.step op
        → test plan.store.nodes op.guard (truths_of plan.clocks.conditions actor.registers)
        ≡ test plan.store.nodes op.guard (truths_of plan.clocks.conditions (seen_at instant)) }
{}

/// A law: an operation whose guard is false of the registers is passed over.
pub fn operations_are_passed_over()
    ensures { (plan : PlanView) → IsAccepted plan → (flows : List (List ℤ)) → AreFlowsFor plan.kernel flows
        → (trace : Trace) (instant : Instant) (actor : Actor) → IsAmid plan flows trace instant actor
        → (op : Op) → StandsAt plan actor.step op
        → test plan.store.nodes op.guard (truths_of plan.clocks.conditions actor.registers) ≡ false
        → (next : Actor) → AreAlike next (stepped actor) → IsAmid plan flows trace instant next }
{}

/// A law: an operation whose guard is true of the registers and that comes to a value is done.
pub fn operations_are_done()
    ensures { (plan : PlanView) → IsAccepted plan → (flows : List (List ℤ)) → AreFlowsFor plan.kernel flows
        → (trace : Trace) (instant : Instant) (actor : Actor) → IsAmid plan flows trace instant actor
        → (op : Op) → StandsAt plan actor.step op
        → test plan.store.nodes op.guard (truths_of plan.clocks.conditions actor.registers) ≡ true
        → (v : ℤ) → outcome plan.kernel flows actor op ≡ Gives v
        → (next : Actor) → AreAlike next (stepped (operated plan.kernel op v actor)) → IsAmid plan flows trace instant next }
{}

/// A law: an operation whose guard is true of the registers and that comes to a fault ends the run, where
/// the limit of instants is not reached: the committed trace is the longest, and the fault its cause.
pub fn faults_end_runs()
    ensures { (plan : PlanView) → IsAccepted plan → (flows : List (List ℤ)) → AreFlowsFor plan.kernel flows
        → (limit : ℕ) (trace : Trace) → length trace < limit
        → (instant : Instant) (actor : Actor) → IsAmid plan flows trace instant actor
        → (op : Op) → StandsAt plan actor.step op
        → test plan.store.nodes op.guard (truths_of plan.clocks.conditions actor.registers) ≡ true
        → (cause : Cause) → outcome plan.kernel flows actor op ≡ Faults cause
        → (ended : Ended) → ended.instants ≡ length trace → ended.cause ≡ cause
        → IsEnd plan flows limit trace (Some (place_at (length trace + 1) actor.step)) ended }
{}

/// A law: an actor behind the last place commits the instant that it is amid: the trace with the instant
/// is committed, the lines of its registers are the instant's, and without them it is amid the next
/// instant, before the first place.
pub fn instants_are_committed()
    ensures committed { (plan : PlanView) → IsAccepted plan → (flows : List (List ℤ)) → AreFlowsFor plan.kernel flows
        → (trace : Trace) (instant : Instant) (actor : Actor) → IsAmid plan flows trace instant actor
        → actor.step ≡ length plan.order → IsCommitted plan.kernel flows (trace ++ instant ∷ []) }
    ensures lines { (plan : PlanView) → IsAccepted plan → (flows : List (List ℤ)) → AreFlowsFor plan.kernel flows
        → (trace : Trace) (instant : Instant) (actor : Actor) → IsAmid plan flows trace instant actor
        → actor.step ≡ length plan.order
        → seen_lines (outputs_of plan.kernel) (reaction_in plan.kernel actor.registers) ≡ instant_text plan.kernel instant }
    ensures text { (plan : PlanView) → IsAccepted plan → (flows : List (List ℤ)) → AreFlowsFor plan.kernel flows
        → (trace : Trace) (instant : Instant) (actor : Actor) → IsAmid plan flows trace instant actor
        → actor.step ≡ length plan.order
        → output_text plan.kernel (trace ++ instant ∷ [])
        ≡ output_text plan.kernel trace ++ seen_lines (outputs_of plan.kernel) (reaction_in plan.kernel actor.registers) }
    ensures amid { (plan : PlanView) → IsAccepted plan → (flows : List (List ℤ)) → AreFlowsFor plan.kernel flows
        → (trace : Trace) (instant : Instant) (actor : Actor) → IsAmid plan flows trace instant actor
        → actor.step ≡ length plan.order → (other : Instant)
        → IsReference plan.kernel flows (length (trace ++ instant ∷ []) + 1) ((trace ++ instant ∷ []) ++ other ∷ [])
        → (next : Actor) → AreAlike next (instant_behind actor) → IsAmid plan flows (trace ++ instant ∷ []) other next }
{}

/// A law: a committed trace of as many instants as are allowed ends the run: it is the longest, and the
/// limit its cause.
pub fn limits_end_runs()
    ensures { (plan : PlanView) → IsAccepted plan → (flows : List (List ℤ)) → AreFlowsFor plan.kernel flows
        → (limit : ℕ) (trace : Trace) → IsCommitted plan.kernel flows trace → length trace ≡ limit
        → (ended : Ended) → ended.instants ≡ limit → ended.cause ≡ Limit
        → IsEnd plan flows limit trace None ended }
{}

/// A law: a committed trace within the limit begins the longest trace, and its text begins the text of
/// that.
pub fn committed_traces_begin_the_longest()
    ensures trace { (plan : PlanView) → (flows : List (List ℤ)) → (limit : ℕ) (trace longest : Trace)
        → IsCommitted plan.kernel flows trace → length trace ≤ limit
        → IsLongest (IsKernelTrace plan.kernel) flows limit longest → IsPrefixOf trace longest }
    ensures text { (plan : PlanView) → (flows : List (List ℤ)) → (limit : ℕ) (trace longest : Trace)
        → IsCommitted plan.kernel flows trace → length trace ≤ limit
        → IsLongest (IsKernelTrace plan.kernel) flows limit longest
        → IsPrefixOf (output_text plan.kernel trace) (output_text plan.kernel longest) }
{}
