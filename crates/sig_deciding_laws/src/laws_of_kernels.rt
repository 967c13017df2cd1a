//! Laws of what an accepted kernel does, whatever holds its guards. The function of a law does nothing when
//! it runs.

ghost use Rattle.std.specs.Prelude.{◌≡◌, ◌≤◌, ◌+◌};
ghost use Rattle.sig_deciding_laws.specs.Prelude.{ℕ, ℤ, List, length, Option, Some, IsLongest, IsPrefixOf, Trace, Instant, Place, LINKS, IsKernelTrace, AreFlowsFor, IsValid, Kernel, Memory, IsAcceptedKernel, Operation, operations_in, IsAccepted, PlanView, numbers_of, LinkInfo, Ended, IsEnd, place_at, IsReference, IsCut, StopsBefore, IsFirstFault, HasOneReaction, IsNext};
ghost use Rattle.sig_deciding_laws.specs.KernelRuns.{AreKernelLinks, AreOrdered, IsKernelEnd};

/// A law: an accepted kernel has one reaction; and whatever its delays remember and its inputs have next, it
/// has no two.
pub fn accepted_kernels_react_once()
    ensures one { (kernel : Kernel) → IsValid kernel → IsAcceptedKernel kernel → HasOneReaction kernel }
    ensures at_most { (kernel : Kernel) → IsValid kernel → IsAcceptedKernel kernel → (memory : Memory) (next : ℕ → ℤ) (a b : Instant)
        → IsNext kernel memory next a → IsNext kernel memory next b → a ≡ b }
{}

/// A law: for flows that fit, an accepted kernel has one extended reference of each number of instants, and a
/// shorter one begins a longer one.
pub fn accepted_kernels_have_one_reference()
    ensures some { (kernel : Kernel) → IsValid kernel → IsAcceptedKernel kernel → (flows : List (List ℤ)) → AreFlowsFor kernel flows
        → (count : ℕ) → (trace : Trace) × IsReference kernel flows count trace }
    ensures one { (kernel : Kernel) → IsValid kernel → IsAcceptedKernel kernel → (flows : List (List ℤ)) → AreFlowsFor kernel flows
        → (count : ℕ) (a b : Trace) → IsReference kernel flows count a → IsReference kernel flows count b → a ≡ b }
    ensures begins { (kernel : Kernel) → IsValid kernel → IsAcceptedKernel kernel → (flows : List (List ℤ)) → AreFlowsFor kernel flows
        → (few many : ℕ) (a b : Trace) → few ≤ many → IsReference kernel flows few a → IsReference kernel flows many b → IsPrefixOf a b }
{}

/// A law: for flows that fit and any limit of instants, an accepted kernel has one longest trace. It is the
/// extended reference up to the limit, or up to the first instant with an integer outside 64 bits, a divisor
/// 0, or a value past the end of an input's flow.
pub fn accepted_kernels_have_one_longest_trace()
    ensures some { (kernel : Kernel) → IsValid kernel → IsAcceptedKernel kernel → (flows : List (List ℤ)) → AreFlowsFor kernel flows
        → (limit : ℕ) → (trace : Trace) × IsLongest (IsKernelTrace kernel) flows limit trace }
    ensures one { (kernel : Kernel) (flows : List (List ℤ)) (limit : ℕ) (a b : Trace)
        → IsLongest (IsKernelTrace kernel) flows limit a → IsLongest (IsKernelTrace kernel) flows limit b → a ≡ b }
    ensures cut { (kernel : Kernel) → IsValid kernel → IsAcceptedKernel kernel → (flows : List (List ℤ)) → AreFlowsFor kernel flows
        → (limit : ℕ) (trace : Trace) → IsLongest (IsKernelTrace kernel) flows limit trace → IsCut kernel flows limit trace }
    ensures begins { (kernel : Kernel) → IsValid kernel → IsAcceptedKernel kernel → (flows : List (List ℤ)) → AreFlowsFor kernel flows
        → (limit count : ℕ) (trace reference : Trace) → IsLongest (IsKernelTrace kernel) flows limit trace
        → length trace ≤ count → IsReference kernel flows count reference → IsPrefixOf trace reference }
{}

/// A law: an accepted kernel has one list of operations in one compiled order, and one list of links, which
/// are few enough.
pub fn accepted_kernels_have_one_order()
    ensures some { (kernel : Kernel) → IsValid kernel → IsAcceptedKernel kernel
        → (operations : List Operation) × (order : List ℕ) × AreOrdered kernel operations order }
    ensures one { (kernel : Kernel) → IsValid kernel → (operations others : List Operation) (order other : List ℕ)
        → AreOrdered kernel operations order → AreOrdered kernel others other → (operations ≡ others) × (order ≡ other) }
    ensures some_links { (kernel : Kernel) → IsAcceptedKernel kernel
        → (links : List LinkInfo) × AreKernelLinks kernel links × (length links ≤ LINKS) }
    ensures one_links { (kernel : Kernel) → IsValid kernel → (a b : List LinkInfo)
        → AreKernelLinks kernel a → AreKernelLinks kernel b → a ≡ b }
{}

/// A law: a run of an accepted kernel over flows that fit, for any limit of instants, has one end: the longest
/// trace, its length, and one named cause with its place. Where the limit is not the cause, the extended
/// reference goes on by an instant that is not within bounds, and the cause is the first fault of that in the
/// compiled order.
pub fn accepted_kernels_have_one_end()
    ensures some { (kernel : Kernel) → IsValid kernel → IsAcceptedKernel kernel → (flows : List (List ℤ)) → AreFlowsFor kernel flows
        → (limit : ℕ) → (trace : Trace) × (place : Option Place) × (ended : Ended) × IsKernelEnd kernel flows limit trace place ended }
    ensures one { (kernel : Kernel) → IsValid kernel → IsAcceptedKernel kernel → (flows : List (List ℤ)) → AreFlowsFor kernel flows
        → (limit : ℕ) (t u : Trace) (p q : Option Place) (a b : Ended)
        → IsKernelEnd kernel flows limit t p a → IsKernelEnd kernel flows limit u q b → (t ≡ u) × (p ≡ q) × (a ≡ b) }
    ensures first { (kernel : Kernel) → IsValid kernel → IsAcceptedKernel kernel → (flows : List (List ℤ)) → AreFlowsFor kernel flows
        → (limit : ℕ) (trace : Trace) (place : Place) (ended : Ended)
        → (operations : List Operation) (order : List ℕ) → AreOrdered kernel operations order
        → IsKernelEnd kernel flows limit trace (Some place) ended
        → (instant : Instant) × (k : ℕ) × StopsBefore kernel flows trace instant
        × IsFirstFault kernel operations order flows trace instant k ended.cause
        × (place ≡ place_at (length trace + 1) k) }
{}

/// A law: an accepted plan holds the operations of its kernel in their compiled order, and its links; and a
/// run of the plan has the end of a run of its kernel, and no other.
pub fn ends_of_plans_are_those_of_their_kernels()
    ensures ordered { (plan : PlanView) → IsAccepted plan
        → AreOrdered plan.kernel (operations_in plan.store.nodes plan.ops) (numbers_of plan.order) }
    ensures links { (plan : PlanView) → IsAccepted plan → AreKernelLinks plan.kernel plan.links }
    ensures kernel { (plan : PlanView) → IsAccepted plan → (flows : List (List ℤ)) (limit : ℕ) (trace : Trace) (place : Option Place) (ended : Ended)
        → IsEnd plan flows limit trace place ended → IsKernelEnd plan.kernel flows limit trace place ended }
    ensures plan { (plan : PlanView) → IsAccepted plan → (flows : List (List ℤ)) (limit : ℕ) (trace : Trace) (place : Option Place) (ended : Ended)
        → IsKernelEnd plan.kernel flows limit trace place ended → IsEnd plan flows limit trace place ended }
{}
