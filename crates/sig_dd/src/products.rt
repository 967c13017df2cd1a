//! Conjunctions in which variables are forgotten, without making the conjunction.

ghost use Rattle.std.specs.Prelude.{◌≡◌, ◌+◌, ◌*◌, ◌^◌, ◌<◌, ◌≤◌, ◌||◌, suc, false, true, ℕ, List, length, IfOk, IfSome, Err};
ghost use Rattle.sig_dd.specs.Diagram.{Depends, StartsFrom, truth_of};
ghost use Rattle.sig_dd.specs.inner.Meets.{HoldsPair};
ghost use Rattle.sig_dd.specs.Nodes.{Holds, IsFull, IsRefOf, IsStore, Keeps, Spans, diagram, test};
ghost use Rattle.sig_dd.specs.Question.{IsTable};
ghost use Rattle.sig_dd.specs.Operand.{side_of};
ghost use Rattle.sig_dd.specs.Products.{product_room, AreProducts, IsJoined, IsPairProduct, IsProduct, IsProductStep, PairTestsOnly};
ghost use Rattle.sig_dd.specs.Shares.{refusal, Share};

use crate::answer::DdAnswer;
use crate::cache::{Table, room_beside};
use crate::keyed::Keyed;
use crate::meets::{Pair, pair_side};
use crate::node::Ref;
use crate::operand::Operand;
use crate::question::Question;
use crate::store::Store;
use std::alloc::AllocError;
use std::collections::HashMap;

/// A pair, split by the first variable that it tests.
#[derive(Clone, Copy)]
pub(crate) struct ProductSplit {
    pub(crate) variable: u32,
    pub(crate) low: Pair,
    pub(crate) high: Pair,
}

/// What is known of a pair at once: its product, or the pairs below it.
#[derive(Clone, Copy)]
pub(crate) enum ProductStep {
    Known(Ref),
    Open(ProductSplit),
}

/// The products that one call has made so far.
type Products = HashMap<Pair, Ref, Keyed>;

/// The pairs where the variable is false, and where it is true.
fn split_pair(first: &Operand, second: &Operand, variable: u32) -> ProductSplit
    ensures variable { result.variable ≡ variable }
    ensures low_first { result.low.first ≡ side_of first.now.node first.now.reference variable false }
    ensures low_second { result.low.second ≡ side_of second.now.node second.now.reference variable false }
    ensures high_first { result.high.first ≡ side_of first.now.node first.now.reference variable true }
    ensures high_second { result.high.second ≡ side_of second.now.node second.now.reference variable true }
{
    ProductSplit {
        variable,
        low: pair_side(first, second, variable, false),
        high: pair_side(first, second, variable, true),
    }
}

impl Store {
    /// The function that is true where some truths of the forgotten variables make both functions
    /// true. A variable past the list's end is not forgotten. The conjunction is not made.
    pub fn meet_without(&mut self, f: Ref, g: Ref, forgotten: &[bool]) -> Result<Ref, DdAnswer>
        requires f { Holds self.old.nodes f }
        requires g { Holds self.old.nodes g }
        ensures store { IsStore self.new }
        ensures kept { Keeps self.old self.new }
        ensures value { IfOk result (IsProduct self.new.nodes forgotten.now
            (test self.old.nodes f) (test self.old.nodes g)) }
        ensures forgets { IfOk result (λ r. (v : ℕ) → Depends (test self.new.nodes r) v
            → truth_of forgotten.now v ≡ false) }
        ensures spends { (vs : List ℕ) → Spans self.old.nodes f vs → Spans self.old.nodes g vs
            → Share (length vs + 1) vs self.old self.new (refusal result) }
    {
        let mut products = HashMap::with_hasher(self.allocator(), self.hashing());
        let mut table = Table::new(self.allocator(), self.hashing());
        let pair = Pair {
            first: f,
            second: g,
        };
        self.product_in(&mut products, &mut table, pair, forgotten)
    }

    /// The product of a pair, where those of some pairs are kept. Each pair is split once, and all
    /// that is joined for it is answered beside one table.
    fn product_in(
        &mut self,
        products: &mut Products,
        table: &mut Table,
        pair: Pair,
        forgotten: &[bool],
    ) -> Result<Ref, DdAnswer>
        requires held { HoldsPair self.old.nodes pair }
        requires table { IsTable ⟦<Question as PartialEq>⟧.eq self.old.nodes table.old.others }
        requires products { AreProducts ⟦<Pair as PartialEq>⟧.eq self.old.nodes forgotten.now products.old }
        ensures was_store { IsStore self.old }
        ensures store { IsStore self.new }
        ensures kept { Keeps self.old self.new }
        ensures table { IsTable ⟦<Question as PartialEq>⟧.eq self.new.nodes table.new.others }
        ensures products { AreProducts ⟦<Pair as PartialEq>⟧.eq self.new.nodes forgotten.now products.new }
        ensures value { IfOk result (IsProduct self.new.nodes forgotten.now
            (test self.old.nodes pair.first) (test self.old.nodes pair.second)) }
        ensures added { (vs : List ℕ) → PairTestsOnly self.old.nodes pair vs
            → length self.new.nodes ≤ length self.old.nodes + product_room (length vs) }
        ensures budget { (n : ℕ) → result ≡ Err (DdAnswer.Budget n)
            → (vs : List ℕ) → PairTestsOnly self.old.nodes pair vs
            → IsFull self.new n × (n < length self.old.nodes + product_room (length vs)) }
    {
        let split = match self.product_step(pair) {
            ProductStep::Known(r) => return Ok(r),
            ProductStep::Open(split) => split,
        };
        if let Some(known) = products.get(&pair) {
            return Ok(*known);
        }
        let low = self.product_in(products, table, split.low, forgotten)?;
        let high = self.product_in(products, table, split.high, forgotten)?;
        let r = self.join(table, split.variable, low, high, forgotten)?;
        self.keep_product(products, pair, r, forgotten)?;
        Ok(r)
    }

    /// The function that is true where one of the two is, beside what the call has answered so far.
    fn either_beside(&mut self, table: &mut Table, f: Ref, g: Ref) -> Result<Ref, DdAnswer>
        requires f { Holds self.old.nodes f }
        requires g { Holds self.old.nodes g }
        requires table { IsTable ⟦<Question as PartialEq>⟧.eq self.old.nodes table.old.others }
        ensures store { IsStore self.new }
        ensures kept { Keeps self.old self.new }
        ensures table { IsTable ⟦<Question as PartialEq>⟧.eq self.new.nodes table.new.others }
        ensures value { IfOk result (IsRefOf self.new.nodes (λ truths.
            test self.old.nodes f truths || test self.old.nodes g truths)) }
        ensures spends { (vs : List ℕ) → Spans self.old.nodes f vs → Spans self.old.nodes g vs
            → Share 1 vs self.old self.new (refusal result) }
    {
        self.answer_beside(table, Question::Pick(f, Ref::TRUE, g))
    }

    /// One of the two functions where the variable is forgotten, and the choice between them by the
    /// variable where it is not.
    fn join(
        &mut self,
        table: &mut Table,
        variable: u32,
        low: Ref,
        high: Ref,
        forgotten: &[bool],
    ) -> Result<Ref, DdAnswer>
        requires low { Holds self.old.nodes low }
        requires high { Holds self.old.nodes high }
        requires low_later { StartsFrom (suc variable) (diagram self.old.nodes low) }
        requires high_later { StartsFrom (suc variable) (diagram self.old.nodes high) }
        requires table { IsTable ⟦<Question as PartialEq>⟧.eq self.old.nodes table.old.others }
        ensures store { IsStore self.new }
        ensures kept { Keeps self.old self.new }
        ensures table { IsTable ⟦<Question as PartialEq>⟧.eq self.new.nodes table.new.others }
        ensures value { IfOk result (IsJoined self.old.nodes self.new.nodes
            (truth_of forgotten.now variable) variable low high) }
        ensures added { (vs : List ℕ) → Spans self.old.nodes low vs → Spans self.old.nodes high vs
            → length self.new.nodes ≤ length self.old.nodes + 2 ^ length vs }
        ensures budget { (n : ℕ) → result ≡ Err (DdAnswer.Budget n)
            → (vs : List ℕ) → Spans self.old.nodes low vs → Spans self.old.nodes high vs
            → IsFull self.new n × (n < length self.old.nodes + 2 ^ length vs) }
    {
        let is_forgotten = forgotten.get(variable as usize).copied().unwrap_or(false);
        if is_forgotten {
            return self.either_beside(table, low, high);
        }
        self.node_for(variable, low, high)
    }

    /// Keeps the product of a pair.
    fn keep_product(
        &self,
        products: &mut Products,
        pair: Pair,
        r: Ref,
        forgotten: &[bool],
    ) -> Result<(), AllocError>
        requires held { HoldsPair self.now.nodes pair }
        requires product { IsPairProduct self.now.nodes forgotten.now pair r }
        requires products { AreProducts ⟦<Pair as PartialEq>⟧.eq self.now.nodes forgotten.now products.old }
        ensures { AreProducts ⟦<Pair as PartialEq>⟧.eq self.now.nodes forgotten.now products.new }
    {
        room_beside(products.len())?;
        products.insert(pair, r)?;
        Ok(())
    }

    /// One step of a product.
    fn product_step(&self, pair: Pair) -> ProductStep
        requires { HoldsPair self.now.nodes pair }
        ensures store { IsStore self.now }
        ensures step { IsProductStep self.now.nodes pair result }
    {
        let first = self.operand(pair.first);
        let second = self.operand(pair.second);
        if pair.first == Ref::FALSE || pair.second == Ref::FALSE {
            return ProductStep::Known(Ref::FALSE);
        }
        if let Some(n) = first.node {
            return ProductStep::Open(split_pair(&first, &second, second.earlier(n.variable)));
        }
        if let Some(n) = second.node {
            return ProductStep::Open(split_pair(&first, &second, first.earlier(n.variable)));
        }
        ProductStep::Known(Ref::TRUE)
    }
}
