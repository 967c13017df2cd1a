//! Laws of what is done at an instant, for a proposal of truths for the conditions. An operation is done
//! where its guard is true. The function of a law does nothing when it runs.

ghost use Rattle.std.specs.Prelude.{◌≡◌, ◌<◌};
ghost use Rattle.sig_plan.specs.Prelude.{ℕ, Bool, true, List, length, slice_get, slice_index, None, Some, Contains, EqId, SigId, KeepsTo, Reaction, Speaks, is_present, status_at, Depends, IsIdle, IsValid, Kernel};
ghost use Rattle.sig_plan.specs.Acceptance.{HasOperations};
ghost use Rattle.sig_plan.specs.Operations.{Operation};
ghost use Rattle.sig_plan.specs.Order.{IsCompiledOrder, Needs, Writes};

/// A law: in a reaction that keeps to a proposal a signal is present exactly where an operation that
/// writes it is done, and then one alone is. So of the two operations of a default one is done where
/// its signal is present, and none elsewhere.
pub fn present_signals_are_written_once()
    ensures present { (kernel : Kernel) → IsValid kernel → (conditions : List SigId) (operations : List Operation)
        → HasOperations kernel conditions operations → (proposal : List Bool) (reaction : Reaction)
        → Speaks kernel reaction → KeepsTo conditions proposal reaction
        → (x : SigId) → x.0 < length kernel.signals → is_present reaction x.0 ≡ true
        → (number : ℕ) × (p : Operation) × (slice_get operations number ≡ Some p) × Writes p x
        × (p.guard proposal ≡ true) }
    ensures written { (kernel : Kernel) → IsValid kernel → (conditions : List SigId) (operations : List Operation)
        → HasOperations kernel conditions operations → (proposal : List Bool) (reaction : Reaction)
        → Speaks kernel reaction → KeepsTo conditions proposal reaction
        → (number : ℕ) (p : Operation) (x : SigId) → slice_get operations number ≡ Some p → Writes p x
        → p.guard proposal ≡ true → is_present reaction x.0 ≡ true }
    ensures once { (kernel : Kernel) → IsValid kernel → (conditions : List SigId) (operations : List Operation)
        → HasOperations kernel conditions operations → (proposal : List Bool) (reaction : Reaction)
        → Speaks kernel reaction → KeepsTo conditions proposal reaction
        → (i j : ℕ) (p q : Operation) (x : SigId) → slice_get operations i ≡ Some p → slice_get operations j ≡ Some q
        → Writes p x → Writes q x → p.guard proposal ≡ true → q.guard proposal ≡ true
        → i ≡ j }
{}

/// A law: where an operation is done, each signal that it reads is present.
pub fn read_signals_are_present()
    ensures { (kernel : Kernel) → IsValid kernel → (conditions : List SigId) (operations : List Operation)
        → HasOperations kernel conditions operations → (proposal : List Bool) (reaction : Reaction)
        → Speaks kernel reaction → KeepsTo conditions proposal reaction
        → (number : ℕ) (p : Operation) (x : SigId) → slice_get operations number ≡ Some p → Contains p.reads x
        → p.guard proposal ≡ true → is_present reaction x.0 ≡ true }
{}

/// A law: an operation reads and writes signals of its kernel, and is made for one of its equations.
pub fn operations_name_what_is_there()
    ensures reads { (kernel : Kernel) → IsValid kernel → (conditions : List SigId) (operations : List Operation)
        → HasOperations kernel conditions operations
        → (number : ℕ) (p : Operation) → slice_get operations number ≡ Some p
        → (x : SigId) → Contains p.reads x → x.0 < length kernel.signals }
    ensures writes { (kernel : Kernel) → IsValid kernel → (conditions : List SigId) (operations : List Operation)
        → HasOperations kernel conditions operations
        → (number : ℕ) (p : Operation) → slice_get operations number ≡ Some p
        → (x : SigId) → Writes p x → x.0 < length kernel.signals }
    ensures equations { (kernel : Kernel) → IsValid kernel → (conditions : List SigId) (operations : List Operation)
        → HasOperations kernel conditions operations
        → (number : ℕ) (p : Operation) → slice_get operations number ≡ Some p
        → (e : EqId) → p.equation ≡ Some e → e.0 < length kernel.equations }
{}

/// A law: in the compiled order what an operation's guard needs is written at earlier places, and so is
/// what the operation reads where it is done, by an operation that is done too.
pub fn operations_have_what_they_need()
    ensures needs { (kernel : Kernel) → IsValid kernel → (conditions : List SigId) (operations : List Operation)
        → HasOperations kernel conditions operations
        → (order : List ℕ) → IsCompiledOrder conditions operations order
        → (j : ℕ) → j < length operations
        → (q : Operation) → slice_get operations (slice_index order j) ≡ Some q
        → (condition : SigId) → Needs conditions q condition
        → (number : ℕ) (p : Operation) → slice_get operations number ≡ Some p → Writes p condition
        → (i : ℕ) × (i < j) × (slice_index order i ≡ number) }
    ensures reads { (kernel : Kernel) → IsValid kernel → (conditions : List SigId) (operations : List Operation)
        → HasOperations kernel conditions operations
        → (order : List ℕ) → IsCompiledOrder conditions operations order
        → (j : ℕ) → j < length operations
        → (q : Operation) → slice_get operations (slice_index order j) ≡ Some q
        → (proposal : List Bool) → q.guard proposal ≡ true → (x : SigId) → Contains q.reads x
        → (i : ℕ) × (p : Operation) × (i < j) × (slice_get operations (slice_index order i) ≡ Some p)
        × Writes p x × (p.guard proposal ≡ true) }
{}

/// A law: a guard depends on conditions alone, and where a condition is absent from a reaction, its
/// truth makes no difference to a guard, once the truths of the earlier conditions are known.
pub fn guards_depend_on_conditions_alone()
    ensures variables { (kernel : Kernel) → IsValid kernel → (conditions : List SigId) (operations : List Operation)
        → HasOperations kernel conditions operations
        → (number : ℕ) (p : Operation) → slice_get operations number ≡ Some p
        → (v : ℕ) → Depends p.guard v → v < length conditions }
    ensures idle { (kernel : Kernel) → IsValid kernel → (conditions : List SigId) (operations : List Operation)
        → HasOperations kernel conditions operations → (proposal : List Bool) (reaction : Reaction)
        → Speaks kernel reaction → KeepsTo conditions proposal reaction
        → (v : ℕ) (condition : SigId) → slice_get conditions v ≡ Some condition
        → status_at reaction condition.0 ≡ None
        → (number : ℕ) (p : Operation) → slice_get operations number ≡ Some p → IsIdle p.guard proposal v }
{}
