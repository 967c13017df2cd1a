//! Laws of accepted plans and their runs. The function of a law does nothing when it runs.

ghost use Rattle.std.specs.Prelude.{◌≡◌, ◌+◌, ◌++◌, ◌∷◌};
ghost use Rattle.sig_meaning_laws.specs.Prelude.{[], ℕ, ℤ, true, List, length, slice_get, Contains, Option, Some, Fits, Instant, NoneSilent, Trace, seen_at, EqId, SigId, Place, Equation, Delay, test, IsKernelTrace, Memory, AreFlowsFor, Actor, Registers, truths_of, IsEnd, place_at, first_in, outcome, IsReference, Operation, operation_in, operations_in, IsAccepted, PlanView, numbers_of, Cause, Ended, Op, Store};
ghost use Rattle.sig_meaning_laws.specs.Ends.{IsWithinBounds, StopsBefore};
ghost use Rattle.sig_meaning_laws.specs.Faults.{IsFaultAt, IsFirstFault};
ghost use Rattle.sig_meaning_laws.specs.Outcomes.{IsAt, IsOutcome};
ghost use Rattle.sig_meaning_laws.specs.Reactions.{HasOneReaction, IsNext};

/// A law: the kernel of an accepted plan has one reaction; and whatever its delays remember and its inputs have
/// next, it has no two.
pub fn accepted_plans_have_one_reaction()
    ensures one { (plan : PlanView) → IsAccepted plan → HasOneReaction plan.kernel }
    ensures at_most { (plan : PlanView) → IsAccepted plan → (memory : Memory) (next : ℕ → ℤ) (a b : Instant)
        → IsNext plan.kernel memory next a → IsNext plan.kernel memory next b → a ≡ b }
{}

/// A law: a run of an accepted plan over flows that fit has one end: the longest trace, its length, and
/// one named cause with its place. Where the limit is not the cause, the extended reference goes on by
/// an instant that is not within bounds, and the cause is the first fault of that in the compiled order.
pub fn named_causes_exist_once()
    ensures some { (plan : PlanView) → IsAccepted plan → (flows : List (List ℤ)) → AreFlowsFor plan.kernel flows → (limit : ℕ)
        → (trace : Trace) × (place : Option Place) × (ended : Ended) × IsEnd plan flows limit trace place ended }
    ensures one { (plan : PlanView) → IsAccepted plan → (flows : List (List ℤ)) → AreFlowsFor plan.kernel flows → (limit : ℕ)
        → (t u : Trace) (p q : Option Place) (a b : Ended) → IsEnd plan flows limit t p a → IsEnd plan flows limit u q b
        → (t ≡ u) × (p ≡ q) × (a ≡ b) }
    ensures first { (plan : PlanView) → IsAccepted plan → (flows : List (List ℤ)) → AreFlowsFor plan.kernel flows → (limit : ℕ)
        → (trace : Trace) (place : Place) (ended : Ended) → IsEnd plan flows limit trace (Some place) ended
        → (instant : Instant) × (k : ℕ) × StopsBefore plan.kernel flows trace instant
        × IsFirstFault plan.kernel (operations_in plan.store.nodes plan.ops) (numbers_of plan.order) flows trace instant k ended.cause
        × (place ≡ place_at (length trace + 1) k) }
{}

/// A law: an instant by which the extended reference of an accepted plan goes on, where the reference so
/// far is a trace of the kernel and fits the flows, is within bounds exactly where no operation meets a
/// fault.
pub fn faults_are_out_of_bounds()
    ensures none { (plan : PlanView) → IsAccepted plan → (flows : List (List ℤ)) → AreFlowsFor plan.kernel flows
        → (trace : Trace) (instant : Instant) → IsWithinBounds plan.kernel flows trace instant → (place : ℕ) (cause : Cause)
        → IsFaultAt plan.kernel (operations_in plan.store.nodes plan.ops) (numbers_of plan.order) flows trace instant place cause → ⊥ }
    ensures first { (plan : PlanView) → IsAccepted plan → (flows : List (List ℤ)) → AreFlowsFor plan.kernel flows
        → (trace : Trace) (instant : Instant) → IsKernelTrace plan.kernel trace → Fits flows trace → NoneSilent trace
        → StopsBefore plan.kernel flows trace instant
        → (place : ℕ) × (cause : Cause)
        × IsFirstFault plan.kernel (operations_in plan.store.nodes plan.ops) (numbers_of plan.order) flows trace instant place cause }
{}

/// A law: what a done operation of an accepted plan comes to at an actor that has what the operation
/// reads, remembers what the trace so far leaves, and has read what that took, is what the instant has by
/// which the extended reference goes on: the value of the signal that is written, or a fault.
pub fn outcomes_are_of_the_reference()
    ensures { (plan : PlanView) → IsAccepted plan → (flows : List (List ℤ)) → AreFlowsFor plan.kernel flows
        → (trace : Trace) (instant : Instant) → IsKernelTrace plan.kernel trace → Fits flows trace → NoneSilent trace
        → IsReference plan.kernel flows (length trace + 1) (trace ++ instant ∷ [])
        → (number : ℕ) (op : Op) → slice_get plan.ops number ≡ Some op
        → test plan.store.nodes op.guard (truths_of plan.clocks.conditions (seen_at instant)) ≡ true
        → (actor : Actor) → IsAt plan.kernel trace instant op actor
        → IsOutcome plan.kernel flows trace instant (operation_in plan.store.nodes op) (outcome plan.kernel flows actor op) }
{}

/// A law: a done store of an accepted plan, whose registers have what it reads, keeps what the instant
/// has of the signal that its delay delays.
pub fn stores_keep_what_is_seen()
    ensures { (plan : PlanView) → IsAccepted plan → (memory : Memory) (next : ℕ → ℤ) (instant : Instant)
        → IsNext plan.kernel memory next instant → (number : ℕ) (p : Operation)
        → slice_get (operations_in plan.store.nodes plan.ops) number ≡ Some p
        → p.guard (truths_of plan.clocks.conditions (seen_at instant)) ≡ true
        → (e : EqId) (y x : SigId) (initial : ℤ) (equation : Equation) → p.kind ≡ Store e
        → slice_get plan.kernel.equations e.0 ≡ Some equation → equation.form ≡ Delay y x initial → (registers : Registers)
        → ((z : SigId) → Contains p.reads z → registers z.0 ≡ seen_at instant z.0)
        → seen_at instant x.0 ≡ Some (first_in registers p.reads) }
{}
