//! Two functions compared, pair by pair of what stands below them, without making a node.

ghost use Rattle.std.specs.Prelude.{◌≡◌, ◌↔◌, ◌<◌, ◌≤◌, ◌+◌, ◌-◌, ◌^◌};
ghost use Rattle.sig_verify.specs.Prelude.{ℕ, IfErr, IfOk, IsStore, IsTrue, OnErr, OnOk, earlier_of, side_of};
ghost use Rattle.sig_verify.specs.inner.Diagrams.{IsOf};
ghost use Rattle.sig_verify.specs.inner.Pairs.{HoldsBoth, IsPairStep, IsTired, IsWithin, Meets, NoneMeets};

use crate::diagrams::Diagrams;
use sig_base::limits::NODES;
use sig_dd::{DdAnswer, Keyed, Node, Ref};
use std::alloc::Global;
use std::collections::HashSet;

/// The most pairs that are compared. So many are needed only where the nodes of diagrams might not suffice either.
const PAIRS: u32 = NODES;

/// How many pairs were compared.
#[derive(Drop)]
pub(crate) struct Work {
    pub(crate) pairs: u32,
    keyed: Keyed,
    alloc: Global,
}

/// Two functions of which is asked whether some truths make the first true and give the second a truth.
#[derive(Clone, Copy, Debug, PartialEq, Eq, Hash)]
pub(crate) struct Pair {
    pub(crate) first: Ref,
    pub(crate) second: Ref,
}

/// What is known of a pair at once: whether it meets, or the pairs where the first variable that it tests is false, and
/// where it is true.
#[derive(Clone, Copy)]
pub(crate) enum PairStep {
    Known(bool),
    Open(Pair, Pair),
}

/// The earlier one of a variable and a node's own.
fn earlier(node: Option<Node>, variable: u32) -> u32
    ensures { result ≡ earlier_of node variable }
{
    match node {
        Some(n) if n.variable < variable => n.variable,
        _ => variable,
    }
}

/// The function where the variable, before which it tests none, has the truth.
fn side(node: Option<Node>, r: Ref, variable: u32, truth: bool) -> Ref
    ensures { result ≡ side_of node r variable truth }
{
    match node {
        Some(n) if n.variable == variable => { if truth { n.high } else { n.low } }
        _ => r,
    }
}

impl Work {
    /// None was compared yet.
    pub(crate) fn new(alloc: Global, keyed: Keyed) -> Work
        ensures { result.pairs ≡ 0 }
    {
        Work {
            pairs: 0,
            keyed,
            alloc,
        }
    }

    /// One more pair, unless there were too many.
    fn count(&mut self) -> Result<(), DdAnswer>
        ensures counted { OnOk result (self.new.pairs ≡ self.old.pairs + 1) }
        ensures refused { OnErr result (self.new.pairs ≡ self.old.pairs) }
        ensures answer { IfErr result (IsTired self.old 1) }
    {
        if self.pairs >= PAIRS {
            return Err(DdAnswer::Budget(NODES));
        }
        self.pairs += 1;
        Ok(())
    }
}

impl Diagrams {
    /// Whether some truths make the first function true and give the second this truth. There are fewer pairs than
    /// proposals.
    pub(crate) fn meets(
        &self,
        work: &mut Work,
        first: Ref,
        second: Ref,
        truth: bool,
    ) -> Result<bool, DdAnswer>
        requires first { IsOf self.now first }
        requires second { IsOf self.now second }
        ensures value { IfOk result (λ met. IsTrue met
            ↔ Meets self.now.store.nodes (record { first = first; second = second }) truth) }
        ensures counted { work.new.pairs ≤ work.old.pairs + 2 ^ self.now.conditions }
        ensures refused { IfErr result (IsTired work.old (2 ^ self.now.conditions)) }
    {
        let mut apart = HashSet::with_hasher(work.alloc, work.keyed);
        self.meets_in(work, &mut apart, Pair { first, second }, truth)
    }

    /// The same of a pair, where some pairs are known not to meet. Each pair is split once.
    fn meets_in(
        &self,
        work: &mut Work,
        apart: &mut HashSet<Pair, Keyed>,
        pair: Pair,
        truth: bool,
    ) -> Result<bool, DdAnswer>
        requires held { HoldsBoth self.now.store.nodes pair }
        requires apart { NoneMeets ⟦<Pair as PartialEq>⟧.eq self.now.store.nodes truth apart.old }
        ensures store { IsStore self.now.store }
        ensures apart { OnOk result (NoneMeets ⟦<Pair as PartialEq>⟧.eq self.now.store.nodes truth apart.new) }
        ensures value { IfOk result (λ met. IsTrue met ↔ Meets self.now.store.nodes pair truth) }
        ensures counted { (from to : ℕ) → IsWithin self.now.store.nodes from to pair → work.new.pairs < work.old.pairs + 2 ^ (to - from) }
        ensures refused { (from to : ℕ) → IsWithin self.now.store.nodes from to pair → IfErr result (IsTired work.old (2 ^ (to - from))) }
    {
        let (low, high) = match self.pair_step(pair, truth) {
            PairStep::Known(met) => return Ok(met),
            PairStep::Open(low, high) => (low, high),
        };
        // The first way down asks for no hash.
        if !apart.is_empty() && apart.contains(&pair) {
            return Ok(false);
        }
        work.count()?;
        if self.meets_in(work, apart, low, truth)? {
            return Ok(true);
        }
        if self.meets_in(work, apart, high, truth)? {
            return Ok(true);
        }
        apart.insert(pair)?;
        Ok(false)
    }

    /// One step of a pair.
    fn pair_step(&self, pair: Pair, truth: bool) -> PairStep
        requires { HoldsBoth self.now.store.nodes pair }
        ensures store { IsStore self.now.store }
        ensures step { IsPairStep self.now.store.nodes pair truth result }
    {
        if pair.first == self.store.constant(false) || pair.second == self.store.constant(!truth) {
            return PairStep::Known(false);
        }
        if pair.first == pair.second {
            return PairStep::Known(truth);
        }
        // A function that is not constant has either truth somewhere.
        let first = self.store.node(pair.first);
        let Some(n) = first else {
            return PairStep::Known(true);
        };
        let second = self.store.node(pair.second);
        if second.is_none() {
            return PairStep::Known(true);
        }
        let variable = earlier(second, n.variable);
        PairStep::Open(
            Pair {
                first: side(first, pair.first, variable, false),
                second: side(second, pair.second, variable, false),
            },
            Pair {
                first: side(first, pair.first, variable, true),
                second: side(second, pair.second, variable, true),
            },
        )
    }
}
