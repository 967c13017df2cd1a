//! The value of a function.

ghost use Rattle.std.specs.Prelude.{◌≡◌, ◌+◌, ◌<◌, ℕ, length};
ghost use Rattle.sig_dd.specs.Diagram.{Depends, visited};
ghost use Rattle.sig_dd.specs.Nodes.{Holds, IsStore, diagram, test};

use crate::node::Ref;
use crate::steps::Steps;
use crate::store::Store;
use std::sync::ledger::Ledger;

impl Store {
    /// The function's value at the truths, which tell each variable on which it depends. The
    /// counter rises by the number of nodes that the walk visits.
    pub fn eval<L: Ledger>(&self, f: Ref, truths: &[bool], steps: &mut Steps<L>) -> bool
        requires held { Holds self.now.nodes f }
        requires told { (v : ℕ) → Depends (test self.now.nodes f) v → v < length truths.now }
        ensures store { IsStore self.now }
        ensures value { result ≡ test self.now.nodes f truths.now }
        ensures counted { steps.new ≡ steps.old + visited (diagram self.now.nodes f) truths.now }
    {
        let mut r = f;
        while let Some(n) = self.node(r) {
            steps.tick();
            r = n.child(truths[n.variable as usize]);
        }
        r == Ref::TRUE
    }
}
