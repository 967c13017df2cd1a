//! Functions of other variables.

ghost use Rattle.std.specs.Prelude.{◌≡◌, ◌+◌, ◌*◌, ◌^◌, ◌<◌, ◌≤◌, ℕ, List, length, map, slice_get, Contains, IfOk, IfSome, Some, Err};
ghost use Rattle.sig_dd.specs.Diagram.{truth_of, Depends};
ghost use Rattle.sig_dd.specs.Nodes.{Holds, IsFull, IsRefOf, IsStore, Keeps, Spans, test};
ghost use Rattle.sig_dd.specs.inner.Renaming.{AreRenamed, IsChoiceBy, IsRenamed, RefTestsOnly};
ghost use Rattle.sig_dd.specs.Shares.{refusal, Share};

use crate::answer::DdAnswer;
use crate::keyed::Keyed;
use crate::node::Ref;
use crate::store::Store;
use std::alloc::AllocError;
use std::collections::HashMap;

/// The functions that one call has renamed so far.
type Renamed = HashMap<Ref, Ref, Keyed>;

/// The variable that stands in the place of another one.
fn target(to: &[u32], variable: u32) -> Option<u32>
    ensures { result ≡ slice_get to.now variable }
{
    to.get(variable as usize).copied()
}

impl Store {
    /// The function in which variable `to[v]` stands in the place of each variable v. A variable past
    /// the list's end counts as false. The order of the new variables may be another one.
    pub fn rename(&mut self, f: Ref, to: &[u32]) -> Result<Ref, DdAnswer>
        requires { Holds self.old.nodes f }
        ensures store { IsStore self.new }
        ensures kept { Keeps self.old self.new }
        ensures value { IfOk result (IsRefOf self.new.nodes (λ truths.
            test self.old.nodes f (map (truth_of truths) to.now))) }
        ensures depends { IfOk result (λ r. (w : ℕ) → Depends (test self.new.nodes r) w
            → (v : ℕ) × Depends (test self.old.nodes f) v × (slice_get to.now v ≡ Some w)) }
        ensures spends { (vs : List ℕ) → Spans self.old.nodes f vs
            → Share (length vs + 1) vs self.old self.new (refusal result) }
    {
        let mut renamed = HashMap::with_hasher(self.allocator(), self.hashing());
        self.rename_in(&mut renamed, f, to)
    }

    /// The function with other variables, where some are renamed already. Each node is taken once.
    fn rename_in(&mut self, renamed: &mut Renamed, f: Ref, to: &[u32]) -> Result<Ref, DdAnswer>
        requires held { Holds self.old.nodes f }
        requires renamed { AreRenamed ⟦<Ref as PartialEq>⟧.eq self.old.nodes to.now renamed.old }
        ensures was_store { IsStore self.old }
        ensures store { IsStore self.new }
        ensures kept { Keeps self.old self.new }
        ensures renamed { AreRenamed ⟦<Ref as PartialEq>⟧.eq self.new.nodes to.now renamed.new }
        ensures value { IfOk result (IsRenamed self.old.nodes self.new.nodes to.now f) }
        ensures added { (vs : List ℕ) → RefTestsOnly self.old.nodes f vs
            → length self.new.nodes ≤ length self.old.nodes + length vs * 2 ^ length vs }
        ensures budget { (n : ℕ) → result ≡ Err (DdAnswer.Budget n)
            → (vs : List ℕ) → RefTestsOnly self.old.nodes f vs
            → IsFull self.new n × (n < length self.old.nodes + length vs * 2 ^ length vs) }
    {
        let Some(node) = self.node(f) else {
            return Ok(f);
        };
        if let Some(known) = renamed.get(&f) {
            return Ok(*known);
        }
        let low = self.rename_in(renamed, node.low, to)?;
        let high = self.rename_in(renamed, node.high, to)?;
        let r = self.choice_by(target(to, node.variable), low, high)?;
        self.keep_renamed(renamed, f, r, to)?;
        Ok(r)
    }

    /// The choice between two functions by a variable, and the first one where there is none.
    fn choice_by(&mut self, variable: Option<u32>, low: Ref, high: Ref) -> Result<Ref, DdAnswer>
        requires low { Holds self.old.nodes low }
        requires high { Holds self.old.nodes high }
        ensures store { IsStore self.new }
        ensures kept { Keeps self.old self.new }
        ensures value { IfOk result (IsChoiceBy self.old.nodes self.new.nodes variable low high) }
        ensures added { (vs : List ℕ) → Spans self.old.nodes low vs → Spans self.old.nodes high vs
            → IfSome variable (Contains vs)
            → length self.new.nodes ≤ length self.old.nodes + 2 ^ length vs }
        ensures budget { (n : ℕ) → result ≡ Err (DdAnswer.Budget n)
            → (vs : List ℕ) → Spans self.old.nodes low vs → Spans self.old.nodes high vs
            → IfSome variable (Contains vs)
            → IsFull self.new n × (n < length self.old.nodes + 2 ^ length vs) }
    {
        // What holds of every store is known where one is asked.
        let _nodes = self.len();
        let Some(v) = variable else {
            return Ok(low);
        };
        let chosen = self.variable(v)?;
        self.ite(chosen, high, low)
    }

    /// Keeps a renamed function.
    fn keep_renamed(
        &self,
        renamed: &mut Renamed,
        f: Ref,
        r: Ref,
        to: &[u32],
    ) -> Result<(), AllocError>
        requires held { Holds self.now.nodes f }
        requires value { IsRenamed self.now.nodes self.now.nodes to.now f r }
        requires renamed { AreRenamed ⟦<Ref as PartialEq>⟧.eq self.now.nodes to.now renamed.old }
        ensures { AreRenamed ⟦<Ref as PartialEq>⟧.eq self.now.nodes to.now renamed.new }
    {
        renamed.insert(f, r)?;
        Ok(())
    }
}
