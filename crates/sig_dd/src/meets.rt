//! Two truths of two functions, told without making a node.

ghost use Rattle.std.specs.Prelude.{◌≡◌, ◌≢◌, ◌↔◌, ℕ, IfOk, OnOk, Err, IsTrue};
ghost use Rattle.sig_dd.specs.Nodes.{Holds, IsStore, Implies, Overlap};
ghost use Rattle.sig_dd.specs.Operand.{side_of};
ghost use Rattle.sig_dd.specs.inner.Meets.{HoldsPair, Meets, NoneMeets, IsPairStep};

use crate::answer::DdAnswer;
use crate::cache::room_beside;
use crate::keyed::Keyed;
use crate::node::Ref;
use crate::operand::Operand;
use crate::store::Store;
use std::alloc::AllocError;
use std::collections::HashSet;

/// Two functions of which is asked whether some truths make the first true and give the second a
/// truth.
#[derive(Clone, Copy, Debug, PartialEq, Eq, Hash)]
pub(crate) struct Pair {
    pub(crate) first: Ref,
    pub(crate) second: Ref,
}

/// What is known of a pair at once: whether it meets, or the pairs where the first variable that
/// it tests is false, and where it is true.
#[derive(Clone, Copy)]
pub(crate) enum PairStep {
    Known(bool),
    Open(Pair, Pair),
}

/// The pair where the variable has the truth.
pub(crate) fn pair_side(first: &Operand, second: &Operand, variable: u32, truth: bool) -> Pair
    ensures first { result.first ≡ side_of first.now.node first.now.reference variable truth }
    ensures second { result.second ≡ side_of second.now.node second.now.reference variable truth }
{
    Pair {
        first: first.side(variable, truth),
        second: second.side(variable, truth),
    }
}

impl Store {
    /// Whether the second function is true wherever the first is.
    pub fn within(&self, f: Ref, g: Ref) -> Result<bool, DdAnswer>
        requires f { Holds self.now.nodes f }
        requires g { Holds self.now.nodes g }
        ensures store { IsStore self.now }
        ensures value { IfOk result (λ holds. IsTrue holds ↔ Implies self.now.nodes f g) }
        ensures no_budget { (n : ℕ) → result ≢ Err (DdAnswer.Budget n) }
    {
        Ok(!self.meets(f, g, false)?)
    }

    /// Whether some truths make both functions true.
    pub fn overlap(&self, f: Ref, g: Ref) -> Result<bool, DdAnswer>
        requires f { Holds self.now.nodes f }
        requires g { Holds self.now.nodes g }
        ensures store { IsStore self.now }
        ensures value { IfOk result (λ holds. IsTrue holds ↔ Overlap self.now.nodes f g) }
        ensures no_budget { (n : ℕ) → result ≢ Err (DdAnswer.Budget n) }
    {
        Ok(self.meets(f, g, true)?)
    }

    /// Whether some truths make the first function true and give the second this truth.
    fn meets(&self, first: Ref, second: Ref, truth: bool) -> Result<bool, AllocError>
        requires first { Holds self.now.nodes first }
        requires second { Holds self.now.nodes second }
        ensures store { IsStore self.now }
        ensures value { IfOk result (λ met. IsTrue met
            ↔ Meets self.now.nodes (record { first = first; second = second }) truth) }
    {
        let mut apart = HashSet::with_hasher(self.allocator(), self.hashing());
        self.meets_in(&mut apart, Pair { first, second }, truth)
    }

    /// The same of a pair, where some pairs are known not to meet. Each pair is split once.
    fn meets_in(
        &self,
        apart: &mut HashSet<Pair, Keyed>,
        pair: Pair,
        truth: bool,
    ) -> Result<bool, AllocError>
        requires held { HoldsPair self.now.nodes pair }
        requires apart { NoneMeets ⟦<Pair as PartialEq>⟧.eq self.now.nodes truth apart.old }
        ensures store { IsStore self.now }
        ensures apart { OnOk result (
            NoneMeets ⟦<Pair as PartialEq>⟧.eq self.now.nodes truth apart.new) }
        ensures value { IfOk result (λ met. IsTrue met ↔ Meets self.now.nodes pair truth) }
    {
        let (low, high) = match self.pair_step(pair, truth) {
            PairStep::Known(met) => return Ok(met),
            PairStep::Open(low, high) => (low, high),
        };
        // The first way down asks for no hash.
        if !apart.is_empty() && apart.contains(&pair) {
            return Ok(false);
        }
        if self.meets_in(apart, low, truth)? {
            return Ok(true);
        }
        if self.meets_in(apart, high, truth)? {
            return Ok(true);
        }
        room_beside(apart.len())?;
        apart.insert(pair)?;
        Ok(false)
    }

    /// One step of a pair.
    fn pair_step(&self, pair: Pair, truth: bool) -> PairStep
        requires { HoldsPair self.now.nodes pair }
        ensures store { IsStore self.now }
        ensures step { IsPairStep self.now.nodes pair truth result }
    {
        let first = self.operand(pair.first);
        let second = self.operand(pair.second);
        if pair.first == Ref::FALSE || pair.second == Ref::constant(!truth) {
            return PairStep::Known(false);
        }
        if pair.first == pair.second {
            return PairStep::Known(truth);
        }
        // A function that is not constant has either truth somewhere.
        let Some(n) = first.node else {
            return PairStep::Known(true);
        };
        if second.node.is_none() {
            return PairStep::Known(true);
        }
        let variable = second.earlier(n.variable);
        PairStep::Open(
            pair_side(&first, &second, variable, false),
            pair_side(&first, &second, variable, true),
        )
    }
}
