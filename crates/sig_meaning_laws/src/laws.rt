//! Laws of kernels that have one reaction. The function of a law does nothing when it runs.

ghost use Rattle.std.specs.Prelude.{◌≡◌, ◌≤◌};
ghost use Rattle.sig_meaning_laws.specs.Prelude.{ℕ, ℤ, List, length, Function, Gives, operand_count, IsLongest, IsPrefixOf, Trace, Unbounded, IsKernelTrace, AreFlowsFor, IsValid, Kernel, IsReference, result_of};
ghost use Rattle.sig_meaning_laws.specs.Ends.{IsCut};
ghost use Rattle.sig_meaning_laws.specs.Reactions.{HasOneReaction};

/// A law: the result of a function of as many values as it has operands is the one value that the
/// function gives of them, where every whole number is an integer.
pub fn functions_have_results()
    ensures given { (function : Function) (operands : List ℤ) → length operands ≡ operand_count function
        → Gives Unbounded function operands (result_of function operands) }
    ensures one { (function : Function) (operands : List ℤ) (v : ℤ) → Gives Unbounded function operands v
        → v ≡ result_of function operands }
{}

/// A law: a valid kernel that has one reaction has, for flows that fit, one extended reference of each
/// number of instants, and a shorter one begins a longer one.
pub fn references_exist_once()
    ensures some { (kernel : Kernel) → IsValid kernel → HasOneReaction kernel → (flows : List (List ℤ)) → AreFlowsFor kernel flows
        → (count : ℕ) → (trace : Trace) × IsReference kernel flows count trace }
    ensures one { (kernel : Kernel) → IsValid kernel → HasOneReaction kernel → (flows : List (List ℤ)) → AreFlowsFor kernel flows
        → (count : ℕ) (a b : Trace) → IsReference kernel flows count a → IsReference kernel flows count b → a ≡ b }
    ensures begins { (kernel : Kernel) → IsValid kernel → HasOneReaction kernel → (flows : List (List ℤ)) → AreFlowsFor kernel flows
        → (few many : ℕ) (a b : Trace) → few ≤ many → IsReference kernel flows few a → IsReference kernel flows many b → IsPrefixOf a b }
{}

/// A law: a valid kernel that has one reaction has a longest trace, for flows that fit and any limit of
/// instants. It is the extended reference up to the limit, or up to the first instant with an integer
/// outside 64 bits, a divisor 0, or a value past the end of an input's flow.
pub fn longest_traces_exist()
    ensures some { (kernel : Kernel) → IsValid kernel → HasOneReaction kernel → (flows : List (List ℤ)) → AreFlowsFor kernel flows
        → (limit : ℕ) → (trace : Trace) × IsLongest (IsKernelTrace kernel) flows limit trace }
    ensures cut { (kernel : Kernel) → IsValid kernel → HasOneReaction kernel → (flows : List (List ℤ)) → AreFlowsFor kernel flows
        → (limit : ℕ) (trace : Trace) → IsLongest (IsKernelTrace kernel) flows limit trace → IsCut kernel flows limit trace }
    ensures begins { (kernel : Kernel) → IsValid kernel → HasOneReaction kernel → (flows : List (List ℤ)) → AreFlowsFor kernel flows
        → (limit count : ℕ) (trace reference : Trace) → IsLongest (IsKernelTrace kernel) flows limit trace
        → length trace ≤ count → IsReference kernel flows count reference → IsPrefixOf trace reference }
{}
