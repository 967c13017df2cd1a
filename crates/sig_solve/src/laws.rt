//! What holds of the clocks of a kernel.

ghost use Rattle.std.specs.Prelude.{◌≡◌, ◌≢◌};
ghost use Rattle.sig_solve.specs.Prelude.{ℕ, Bool, List, None, Some, slice_get, SigId, KeepsTo, HasClocks, AreClocks, ClocksView, Reaction, Speaks, status_at, IsStore, StoreView, diagram, Ref, Kernel};
ghost use Rattle.sig_solve.specs.Walks.{Asks};

/// A law: in a kernel that has clocks, the walk of a guard from its top, by truths that a reaction keeps
/// to, never asks for a condition that is absent from the reaction.
pub fn walks_ask_no_absent_condition()
    ensures { (kernel : Kernel) (s : StoreView) (clocks : ClocksView) → IsStore s → HasClocks kernel → AreClocks kernel s.nodes clocks
        → (class : ℕ) (guard : Ref) → slice_get clocks.guard class ≡ Some guard
        → (reaction : Reaction) (proposal : List Bool) → Speaks kernel reaction → KeepsTo clocks.conditions proposal reaction
        → (v : ℕ) (condition : SigId) → slice_get clocks.conditions v ≡ Some condition
        → Asks (diagram s.nodes guard) proposal v → status_at reaction condition.0 ≢ None }
{}
