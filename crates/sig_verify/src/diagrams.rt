//! Diagrams over the conditions of an image.

ghost use Rattle.std.specs.Prelude.{◌≡◌, ◌↔◌, ◌+◌, ◌<◌, ◌≤◌, ◌^◌, ◌&&◌, ◌||◌, if◌then◌else◌};
ghost use Rattle.sig_verify.specs.Prelude.{Bool, List, IfErr, IfOk, IsTrue, OnErr, OnOk, true, NODES, Implies, Overlap, test, truth_of};
ghost use Rattle.sig_verify.specs.inner.Diagrams.{AreDiagrams, Follows, IsFor, IsOf, IsRefusal};
ghost use Rattle.sig_verify.specs.inner.Pairs.{IsTired};

use crate::pairs::Work;
use sig_base::limits::NODES;
use sig_dd::{DdAnswer, Keyed, Ref, Store};
use std::alloc::Global;

/// The most calls that make diagrams. So many are needed only where the nodes of diagrams might not suffice either.
const CALLS: u32 = NODES;

/// A store of diagrams over so many conditions, and how many calls have made diagrams in it.
#[derive(Drop)]
pub(crate) struct Diagrams {
    pub(crate) store: Store,
    pub(crate) conditions: usize,
    pub(crate) calls: u32,
}

impl Diagrams {
    /// No diagrams, over so many conditions; they are hashed by a key.
    pub(crate) fn new(alloc: Global, conditions: usize, keyed: Keyed) -> Result<Diagrams, DdAnswer>
        ensures right { IfOk result AreDiagrams }
        ensures conditions { IfOk result (λ diagrams. diagrams.conditions ≡ conditions) }
        ensures calls { IfOk result (λ diagrams. diagrams.calls ≡ 0) }
        ensures memory { IfErr result (λ answer. answer ≡ DdAnswer.OutOfMemory) }
    {
        Ok(Diagrams {
            store: Store::keyed(alloc, NODES, keyed)?,
            conditions,
            calls: 0,
        })
    }

    /// The constant function of this truth.
    pub(crate) fn constant(&self, truth: bool) -> Ref
        ensures { IsFor self.now (λ _. truth) result }
    {
        self.store.constant(truth)
    }

    /// Whether a function is true for every proposal.
    pub(crate) fn is_true(&self, r: Ref) -> bool
        requires { IsOf self.now r }
        ensures { IsTrue result ↔ ((truths : List Bool) → test self.now.store.nodes r truths ≡ true) }
    {
        r == self.store.constant(true)
    }

    /// Whether the second function is true wherever the first is.
    pub(crate) fn within(&self, work: &mut Work, f: Ref, g: Ref) -> Result<bool, DdAnswer>
        requires f { IsOf self.now f }
        requires g { IsOf self.now g }
        ensures value { IfOk result (λ holds. IsTrue holds ↔ Implies self.now.store.nodes f g) }
        ensures counted { work.new.pairs ≤ work.old.pairs + 2 ^ self.now.conditions }
        ensures refused { IfErr result (IsTired work.old (2 ^ self.now.conditions)) }
    {
        Ok(!self.meets(work, f, g, false)?)
    }

    /// Whether some proposal makes both functions true.
    pub(crate) fn overlap(&self, work: &mut Work, f: Ref, g: Ref) -> Result<bool, DdAnswer>
        requires f { IsOf self.now f }
        requires g { IsOf self.now g }
        ensures value { IfOk result (λ holds. IsTrue holds ↔ Overlap self.now.store.nodes f g) }
        ensures counted { work.new.pairs ≤ work.old.pairs + 2 ^ self.now.conditions }
        ensures refused { IfErr result (IsTired work.old (2 ^ self.now.conditions)) }
    {
        self.meets(work, f, g, true)
    }

    /// One more call, unless there were too many.
    fn count(&mut self) -> Result<(), DdAnswer>
        ensures store { self.new.store ≡ self.old.store }
        ensures conditions { self.new.conditions ≡ self.old.conditions }
        ensures counted { OnOk result (self.new.calls ≡ self.old.calls + 1) }
        ensures refused { OnErr result (self.new.calls ≡ self.old.calls) }
        ensures answer { IfErr result (IsRefusal self.old 1) }
    {
        if self.calls >= CALLS {
            return Err(DdAnswer::Budget(NODES));
        }
        self.calls += 1;
        Ok(())
    }

    /// A condition as a function.
    fn variable(&mut self, v: u32) -> Result<Ref, DdAnswer>
        requires right { AreDiagrams self.old }
        requires v { v < self.old.conditions }
        ensures next { Follows 1 self.old self.new }
        ensures value { IfOk result (IsFor self.new (λ truths. truth_of truths v)) }
        ensures refused { IfErr result (IsRefusal self.old 1) }
    {
        self.count()?;
        self.store.variable(v)
    }

    /// The second function where the first is true, and the third elsewhere.
    fn ite(&mut self, f: Ref, g: Ref, h: Ref) -> Result<Ref, DdAnswer>
        requires right { AreDiagrams self.old }
        requires f { IsOf self.old f }
        requires g { IsOf self.old g }
        requires h { IsOf self.old h }
        ensures next { Follows 1 self.old self.new }
        ensures value { IfOk result (IsFor self.new (λ truths. if test self.old.store.nodes f truths
            then test self.old.store.nodes g truths else test self.old.store.nodes h truths)) }
        ensures refused { IfErr result (IsRefusal self.old 1) }
    {
        self.count()?;
        self.store.ite(f, g, h)
    }

    /// The function that is true where both are.
    pub(crate) fn both(&mut self, f: Ref, g: Ref) -> Result<Ref, DdAnswer>
        requires right { AreDiagrams self.old }
        requires f { IsOf self.old f }
        requires g { IsOf self.old g }
        ensures next { Follows 1 self.old self.new }
        ensures value { IfOk result (IsFor self.new (λ truths. test self.old.store.nodes f truths && test self.old.store.nodes g truths)) }
        ensures refused { IfErr result (IsRefusal self.old 1) }
    {
        self.count()?;
        self.store.conj(f, g)
    }

    /// The function that is true where one of the two is.
    pub(crate) fn either(&mut self, f: Ref, g: Ref) -> Result<Ref, DdAnswer>
        requires right { AreDiagrams self.old }
        requires f { IsOf self.old f }
        requires g { IsOf self.old g }
        ensures next { Follows 1 self.old self.new }
        ensures value { IfOk result (IsFor self.new (λ truths. test self.old.store.nodes f truths || test self.old.store.nodes g truths)) }
        ensures refused { IfErr result (IsRefusal self.old 1) }
    {
        self.count()?;
        self.store.disj(f, g)
    }

    /// One function where a condition is false, and another where it is true.
    pub(crate) fn choice(&mut self, v: u32, low: Ref, high: Ref) -> Result<Ref, DdAnswer>
        requires right { AreDiagrams self.old }
        requires v { v < self.old.conditions }
        requires low { IsOf self.old low }
        requires high { IsOf self.old high }
        ensures next { Follows 2 self.old self.new }
        ensures value { IfOk result (IsFor self.new (λ truths. if truth_of truths v
            then test self.old.store.nodes high truths else test self.old.store.nodes low truths)) }
        ensures refused { IfErr result (IsRefusal self.old 2) }
    {
        let condition = self.variable(v)?;
        self.ite(condition, high, low)
    }
}
