//! Laws of relations. The function of a law does nothing when it runs.

ghost use Rattle.std.specs.Prelude.{◌≡◌, ◌<◌};
ghost use Rattle.sig_rel.specs.Prelude.{ℕ, Bool, false, List, Option, None, Some, length, slice_get, slice_index, slice_index_or, IsReaction, Reaction, is_present, status_at, truth_of, with_truth, test, Node, Kernel};
ghost use Rattle.sig_rel.specs.Relations.{AreUnknowns, IsRelation, RelationView, reaction_in, status_in};

/// A law: each abstract reaction of a kernel is one that truths of the unknowns are.
pub fn reactions_are_truths()
    ensures { (kernel : Kernel) (count : ℕ) (nodes : List Node) (relation : RelationView)
        → IsRelation kernel count nodes relation
        → (reaction : Reaction) → IsReaction kernel reaction
        → (truths : List Bool) × (reaction_in truths relation.present relation.truth ≡ reaction) }
{}

/// A law: what a signal is in the reaction that truths are, its own unknowns tell.
pub fn statuses_are_those_of_unknowns()
    ensures status { (truths : List Bool) (present : List ℕ) (truth : List (Option ℕ)) (signal : ℕ)
        → signal < length present → signal < length truth
        → status_at (reaction_in truths present truth) signal
        ≡ status_in truths (slice_index present signal) (slice_index_or truth signal None) }
    ensures presence { (truths : List Bool) (present : List ℕ) (truth : List (Option ℕ)) (signal : ℕ)
        → signal < length present → signal < length truth
        → is_present (reaction_in truths present truth) signal
        ≡ truth_of truths (slice_index present signal) }
{}

/// A law: a relation looks at the reaction alone that truths are, and so not at the truth of a signal
/// that is absent.
pub fn relations_see_reactions()
    ensures same { (kernel : Kernel) (count : ℕ) (nodes : List Node) (relation : RelationView)
        → IsRelation kernel count nodes relation
        → (truths others : List Bool)
        → reaction_in truths relation.present relation.truth
        ≡ reaction_in others relation.present relation.truth
        → test nodes relation.whole truths ≡ test nodes relation.whole others }
    ensures absent { (kernel : Kernel) (count : ℕ) (present : List ℕ) (truth : List (Option ℕ))
        → AreUnknowns kernel count present truth
        → (truths : List Bool) (signal v : ℕ) (b : Bool)
        → slice_get truth signal ≡ Some (Some v) → truth_of truths (slice_index present signal) ≡ false
        → reaction_in (with_truth truths v b) present truth ≡ reaction_in truths present truth }
{}
