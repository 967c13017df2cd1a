//! What holds of every store, for the proofs of the crates above. Each law is over what contracts
//! see of a store, and its function does nothing when it runs.

ghost use Rattle.std.specs.Prelude.{◌≡◌, ◌↔◌, ◌||◌, ◌⊎◌, ◌+◌, ◌*◌, ◌≤◌, ℕ, Bool, true, false, List, ◌∷◌, Option, None, IsTrue, Contains, length, if◌then◌else◌};
ghost use Rattle.sig_dd.specs.Diagram.{truth_of, visited, with_truth, Agree, Depends};
ghost use Rattle.sig_dd.specs.Nodes.{allowance, diagram, test, Holds, IsRefOf, IsStore, Keeps, Spans, StoreView};
ghost use Rattle.sig_dd.specs.Products.{IsProduct};
ghost use Rattle.sig_dd.specs.Shares.{HasAll, HoldAll, Share, Shares, SpanAll, Trail};
ghost use Rattle.sig_dd.specs.Walks.{Asks, IsIdle};
ghost use Rattle.sig_dd.specs.declared.answer.DdAnswer.{DdAnswer};
ghost use Rattle.sig_dd.specs.declared.node.Node.{Node};
ghost use Rattle.sig_dd.specs.declared.node.Ref.{Ref};

use crate::store::Store;

/// A law: two references of one store are equal exactly where their functions are.
pub fn equal_functions_have_one_ref()
    ensures { (s : StoreView) → IsStore s → (f g : Ref) → Holds s.nodes f → Holds s.nodes g
        → (f ≡ g) ↔ Agree (test s.nodes f) (test s.nodes g) }
{}

/// A law: over any number of calls an older reference keeps its function, and depends on the same
/// variables.
pub fn older_references_stay()
    ensures none { (s : StoreView) → Keeps s s }
    ensures then { (r s t : StoreView) → Keeps r s → Keeps s t → Keeps r t }
    ensures held { (s t : StoreView) → Keeps s t → (f : Ref) → Holds s.nodes f → Holds t.nodes f }
    ensures function { (s t : StoreView) → Keeps s t → (f : Ref) → Holds s.nodes f
        → Agree (test t.nodes f) (test s.nodes f) }
    ensures spans { (s t : StoreView) → Keeps s t → (f : Ref) → Holds s.nodes f
        → (vs : List ℕ) → Spans s.nodes f vs → Spans t.nodes f vs }
{}

/// A law: calls in a row add up. No call spends nothing; calls and then others spend what both do;
/// a share of more calls, or over more variables, is wider; and the allowance rises with the list.
pub fn calls_add_up()
    ensures none { (vs : List ℕ) (s : StoreView) → Share 0 vs s s None }
    ensures then { (m n : ℕ) (vs : List ℕ) (r s t : StoreView) (why : Option DdAnswer)
        → Share m vs r s None → Share n vs s t why → Share (m + n) vs r t why }
    ensures wider { (m n : ℕ) (vs ws : List ℕ) (s t : StoreView) (why : Option DdAnswer)
        → m * allowance vs ≤ n * allowance ws → Share m vs s t why → Share n ws s t why }
    ensures rises { (vs ws : List ℕ) → length vs ≤ length ws → allowance vs ≤ allowance ws }
{}

/// A law: calls in a row over the same variables lead on, one after another, and what they made
/// depends on these variables alone; where the last one is refused, their share still bounds it.
pub fn calls_lead_on()
    ensures begins { (vs : List ℕ) (s : StoreView) (fs : List Ref)
        → HoldAll s.nodes fs → SpanAll s.nodes fs vs → Trail 0 vs s s fs }
    ensures next { (m n : ℕ) (vs : List ℕ) (r s t : StoreView) (fs gs : List Ref) (us : List ℕ)
        → Trail m vs r s fs → Keeps s t → Shares n gs us s t None
        → SpanAll s.nodes gs vs → HasAll vs us
        → (f : Ref) → Holds t.nodes f → Spans t.nodes f vs → Trail (m + n) vs r t (f ∷ fs) }
    ensures fails { (m n : ℕ) (vs : List ℕ) (r s t : StoreView) (fs gs : List Ref) (us : List ℕ)
        (why : Option DdAnswer)
        → Trail m vs r s fs → Shares n gs us s t why
        → SpanAll s.nodes gs vs → HasAll vs us → Share (m + n) vs r t why }
{}

/// A law: a reference depends on what its function depends on, and a list that has more variables
/// spans what a list of fewer does.
pub fn references_depend_as_their_functions()
    ensures depends { (nodes : List Node) (f : List Bool → Bool) (r : Ref) → IsRefOf nodes f r
        → (v : ℕ) → Depends (test nodes r) v ↔ Depends f v }
    ensures spans { (nodes : List Node) (r : Ref) (vs ws : List ℕ)
        → ((v : ℕ) → Contains vs v → Contains ws v) → Spans nodes r vs → Spans nodes r ws }
{}

/// A law: a function of others depends on what one of them depends on, a constant on nothing, and
/// a variable on itself alone.
pub fn functions_depend_on_their_parts()
    ensures constant { (b : Bool) (v : ℕ) → Depends (λ _. b) v → ⊥ }
    ensures variable { (u v : ℕ) → Depends (λ truths. truth_of truths u) v ↔ (v ≡ u) }
    ensures of_one { (op : Bool → Bool) (f : List Bool → Bool) (v : ℕ)
        → Depends (λ truths. op (f truths)) v → Depends f v }
    ensures of_two { (op : Bool → Bool → Bool) (f g : List Bool → Bool) (v : ℕ)
        → Depends (λ truths. op (f truths) (g truths)) v → Depends f v ⊎ Depends g v }
    ensures choice { (f g h : List Bool → Bool) (v : ℕ)
        → Depends (λ truths. if f truths then g truths else h truths) v
        → Depends f v ⊎ (Depends g v ⊎ Depends h v) }
{}

/// A law: where a variable's truth is fixed, or the variable is forgotten, the function depends on
/// no more than before, and not on the variable. To forget a variable asks for some truth of it.
pub fn fixed_variables_make_no_difference()
    ensures fixed { (nodes : List Node) (f : Ref) (v : ℕ) (x : Bool) (u : ℕ)
        → Depends (λ truths. test nodes f (with_truth truths v x)) u
        → Depends (test nodes f) u × ((u ≡ v) → ⊥) }
    ensures forgotten { (nodes : List Node) (f : Ref) (v u : ℕ)
        → Depends (λ truths. test nodes f (with_truth truths v false)
        || test nodes f (with_truth truths v true)) u
        → Depends (test nodes f) u × ((u ≡ v) → ⊥) }
    ensures some_truth { (nodes : List Node) (f : Ref) (v : ℕ) (truths : List Bool)
        → IsTrue (test nodes f (with_truth truths v false)
        || test nodes f (with_truth truths v true))
        ↔ ((x : Bool) × IsTrue (test nodes f (with_truth truths v x))) }
{}

/// A law: truths that agree on all variables on which a reference depends give it one value. Those
/// that a walk by the first truths asks for are enough.
pub fn other_variables_make_no_difference()
    ensures depends { (s : StoreView) → IsStore s → (f : Ref) → Holds s.nodes f
        → (truths others : List Bool)
        → ((v : ℕ) → Depends (test s.nodes f) v → truth_of truths v ≡ truth_of others v)
        → test s.nodes f truths ≡ test s.nodes f others }
    ensures spans { (s : StoreView) → IsStore s → (f : Ref) → Holds s.nodes f
        → (vs : List ℕ) → Spans s.nodes f vs → (truths others : List Bool)
        → ((v : ℕ) → Contains vs v → truth_of truths v ≡ truth_of others v)
        → test s.nodes f truths ≡ test s.nodes f others }
    ensures asked { (s : StoreView) → IsStore s → (f : Ref) → Holds s.nodes f
        → (truths others : List Bool)
        → ((v : ℕ) → Asks (diagram s.nodes f) truths v → truth_of truths v ≡ truth_of others v)
        → test s.nodes f truths ≡ test s.nodes f others }
{}

/// A law: a walk asks only for variables on which the reference depends, and for none that makes no
/// difference below the truths of the earlier ones. It visits at most as many nodes as there are
/// variables on which the reference depends, or variables that it asks for.
pub fn walks_ask_nothing_idle()
    ensures depends { (s : StoreView) → IsStore s → (f : Ref) → Holds s.nodes f
        → (truths : List Bool) (v : ℕ) → Asks (diagram s.nodes f) truths v
        → Depends (test s.nodes f) v }
    ensures idle { (s : StoreView) → IsStore s → (f : Ref) → Holds s.nodes f
        → (truths : List Bool) (v : ℕ) → Asks (diagram s.nodes f) truths v
        → IsIdle (test s.nodes f) truths v → ⊥ }
    ensures visited { (s : StoreView) → IsStore s → (f : Ref) → Holds s.nodes f
        → (truths : List Bool) (vs : List ℕ) → Spans s.nodes f vs
        → visited (diagram s.nodes f) truths ≤ length vs }
    ensures visits { (s : StoreView) → IsStore s → (f : Ref) → Holds s.nodes f
        → (truths : List Bool) (vs : List ℕ)
        → ((v : ℕ) → Asks (diagram s.nodes f) truths v → Contains vs v)
        → visited (diagram s.nodes f) truths ≤ length vs }
{}

/// A law: a relational product depends on no forgotten variable, and on no other variable than its
/// two functions do.
pub fn products_forget_their_variables()
    ensures forgotten { (nodes : List Node) (forgotten : List Bool) (f g : List Bool → Bool) (r : Ref)
        → IsProduct nodes forgotten f g r
        → (v : ℕ) → Depends (test nodes r) v → truth_of forgotten v ≡ false }
    ensures spans { (s : StoreView) → IsStore s → (f g : Ref) → Holds s.nodes f → Holds s.nodes g
        → (nodes : List Node) (forgotten : List Bool) (r : Ref)
        → IsProduct nodes forgotten (test s.nodes f) (test s.nodes g) r
        → (vs : List ℕ) → Spans s.nodes f vs → Spans s.nodes g vs → Spans nodes r vs }
{}

/// A law: a store may be shared between threads, and moved to one.
pub fn a_store_may_be_shared() {
    may_be_shared::<Store>();
    may_be_moved::<Store>();
}

fn may_be_shared<T: Sync>() {}

fn may_be_moved<T: Send>() {}
