//! The recursion below the calls: it goes down the variables, and asks first for what is kept.

ghost use Rattle.std.specs.Prelude.{◌≡◌, ◌+◌, ◌^◌, ◌<◌, ℕ, List, length, IfOk, Err};
ghost use Rattle.sig_dd.specs.Nodes.{IsStore, Keeps, IsFull};
ghost use Rattle.sig_dd.specs.Question.{HoldsAll, IsAnswer, IsTable, TestsOnly};

use crate::answer::DdAnswer;
use crate::cache::Table;
use crate::node::Ref;
use crate::question::{Question, Step};
use crate::store::Store;

impl Store {
    /// The reference that answers the question, which is a call's first one or one below it. A
    /// question whose answer lasts is split once while that is kept.
    pub(crate) fn answer_in(
        &mut self,
        table: &mut Table,
        question: Question,
        first: bool,
    ) -> Result<Ref, DdAnswer>
        requires held { HoldsAll self.old.nodes question }
        requires table { IsTable ⟦<Question as PartialEq>⟧.eq self.old.nodes table.old.others }
        ensures was_store { IsStore self.old }
        ensures store { IsStore self.new }
        ensures kept { Keeps self.old self.new }
        ensures table { IsTable ⟦<Question as PartialEq>⟧.eq self.new.nodes table.new.others }
        ensures value { IfOk result (IsAnswer self.new.nodes question) }

        // The nodes that are added; a refusal for their number comes before the last of them.
        ensures added { (vs : List ℕ) → TestsOnly self.old.nodes question vs
            → length self.new.nodes < length self.old.nodes + 2 ^ length vs }
        ensures full { (n : ℕ) → result ≡ Err (DdAnswer.Budget n) → IsFull self.new n }
        ensures budget { (n : ℕ) → result ≡ Err (DdAnswer.Budget n)
            → (vs : List ℕ)
            → TestsOnly self.old.nodes question vs
            → length self.new.nodes + 1 < length self.old.nodes + 2 ^ length vs }
    {
        let split = match self.step(question) {
            Step::Known(r) => return Ok(r),
            Step::Open(split) => split,
        };
        let lasts = split.lasts(first);
        if let Some(known) = self.recall(table, question, lasts) {
            return Ok(known);
        }
        let low = self.answer_in(table, split.low, false)?;
        let high = self.answer_in(table, split.high, false)?;
        let r = self.node_for(split.variable, low, high)?;
        self.keep(table, question, r, lasts)?;
        Ok(r)
    }
}
