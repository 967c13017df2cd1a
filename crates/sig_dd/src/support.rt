//! The variables on which a function depends.

ghost use Rattle.std.specs.Prelude.{◌≡◌, ◌≢◌, ◌↔◌, ℕ, IfOk, OnOk, Err, Contains};
ghost use Rattle.std.specs.List.Sorted.{IsStrictlyIncreasing};
ghost use Rattle.sig_dd.specs.Diagram.{Depends};
ghost use Rattle.sig_dd.specs.Nodes.{Holds, IsStore, test};
ghost use Rattle.sig_dd.specs.inner.Support.{Collects, IsSeen};

use crate::answer::DdAnswer;
use crate::keyed::Keyed;
use crate::node::Ref;
use crate::store::Store;
use std::alloc::AllocError;
use std::collections::{BTreeSet, HashSet};

impl Store {
    /// The variables on which the function depends, in increasing order.
    pub fn support(&self, f: Ref) -> Result<Vec<u32>, DdAnswer>
        requires { Holds self.now.nodes f }
        ensures store { IsStore self.now }
        ensures increasing { IfOk result (λ variables. IsStrictlyIncreasing variables.items) }
        ensures exact { IfOk result (λ variables.
            (v : ℕ) → Contains variables.items v ↔ Depends (test self.now.nodes f) v) }
        ensures no_budget { (n : ℕ) → result ≢ Err (DdAnswer.Budget n) }
    {
        let mut variables = BTreeSet::new(self.allocator());
        let mut seen = HashSet::with_hasher(self.allocator(), self.hashing());
        self.collect_variables(f, &mut seen, &mut variables)?;
        Ok(variables.iter().copied().collect(self.allocator())?)
    }

    /// Adds the variables that the reference's diagram tests. Each node is visited once.
    fn collect_variables(
        &self,
        r: Ref,
        seen: &mut HashSet<Ref, Keyed>,
        variables: &mut BTreeSet<u32>,
    ) -> Result<(), AllocError>
        requires held { Holds self.now.nodes r }
        requires seen { IsSeen ⟦<Ref as PartialEq>⟧.eq self.now.nodes seen.old variables.old }
        ensures store { IsStore self.now }
        ensures seen { OnOk result (
            IsSeen ⟦<Ref as PartialEq>⟧.eq self.now.nodes seen.new variables.new) }
        ensures collected { OnOk result (Collects self.now.nodes r variables.old variables.new) }
    {
        let Some(n) = self.node(r) else {
            return Ok(());
        };
        if seen.contains(&r) {
            return Ok(());
        }
        variables.insert(n.variable)?;
        self.collect_variables(n.low, seen, variables)?;
        self.collect_variables(n.high, seen, variables)?;
        seen.insert(r)?;
        Ok(())
    }
}
