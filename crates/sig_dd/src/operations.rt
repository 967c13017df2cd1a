//! The calls that make functions of others.

ghost use Rattle.std.specs.Prelude.{◌&&◌, ◌||◌, ◌↔◌, not, ℕ, List, [], ◌∷◌, IfOk, IsTrue, true, false, if◌then◌else◌};
ghost use Rattle.sig_dd.specs.Diagram.{truth_of, with_truth};
ghost use Rattle.sig_dd.specs.Nodes.{Holds, IsStore, Keeps, IsRefOf, Implies, test};
ghost use Rattle.sig_dd.specs.Question.{HoldsAll, IsTable, TestsOnly, asked};
ghost use Rattle.sig_dd.specs.Shares.{refusal, Share, Shares};

use crate::answer::DdAnswer;
use crate::cache::Table;
use crate::node::Ref;
use crate::question::Question;
use crate::store::Store;

impl Store {
    /// The reference that answers the question, beside what the call has answered so far.
    pub(crate) fn answer_beside(
        &mut self,
        table: &mut Table,
        question: Question,
    ) -> Result<Ref, DdAnswer>
        requires held { HoldsAll self.old.nodes question }
        requires table { IsTable ⟦<Question as PartialEq>⟧.eq self.old.nodes table.old.others }
        ensures was_store { IsStore self.old }
        ensures store { IsStore self.new }
        ensures kept { Keeps self.old self.new }
        ensures table { IsTable ⟦<Question as PartialEq>⟧.eq self.new.nodes table.new.others }
        ensures value { IfOk result (IsRefOf self.new.nodes (asked self.old.nodes question)) }
        ensures spends { (vs : List ℕ) → TestsOnly self.old.nodes question vs
            → Share 1 vs self.old self.new (refusal result) }
    {
        self.answer_in(table, question, true)
    }

    /// The reference that answers the question.
    fn answer(&mut self, question: Question) -> Result<Ref, DdAnswer>
        requires held { HoldsAll self.old.nodes question }
        ensures was_store { IsStore self.old }
        ensures store { IsStore self.new }
        ensures kept { Keeps self.old self.new }
        ensures value { IfOk result (IsRefOf self.new.nodes (asked self.old.nodes question)) }
        ensures spends { (vs : List ℕ) → TestsOnly self.old.nodes question vs
            → Share 1 vs self.old self.new (refusal result) }
    {
        let mut table = Table::new(self.allocator(), self.hashing());
        self.answer_beside(&mut table, question)
    }

    /// The variable as a function: it is true exactly where the variable is.
    pub fn variable(&mut self, v: u32) -> Result<Ref, DdAnswer>
        ensures store { IsStore self.new }
        ensures kept { Keeps self.old self.new }
        ensures value { IfOk result (IsRefOf self.new.nodes (λ truths. truth_of truths v)) }
        ensures spends { Shares 1 [] (v ∷ []) self.old self.new (refusal result) }
    {
        self.node_for(v, Ref::FALSE, Ref::TRUE)
    }

    /// The second function where the first is true, and the third elsewhere.
    pub fn ite(&mut self, f: Ref, g: Ref, h: Ref) -> Result<Ref, DdAnswer>
        requires f { Holds self.old.nodes f }
        requires g { Holds self.old.nodes g }
        requires h { Holds self.old.nodes h }
        ensures store { IsStore self.new }
        ensures kept { Keeps self.old self.new }
        ensures value { IfOk result (IsRefOf self.new.nodes (λ truths.
            if test self.old.nodes f truths then test self.old.nodes g truths
            else test self.old.nodes h truths)) }
        ensures spends { Shares 1 (f ∷ g ∷ h ∷ []) [] self.old self.new (refusal result) }
    {
        self.answer(Question::Pick(f, g, h))
    }

    /// The function that is true where both are.
    pub fn conj(&mut self, f: Ref, g: Ref) -> Result<Ref, DdAnswer>
        requires f { Holds self.old.nodes f }
        requires g { Holds self.old.nodes g }
        ensures store { IsStore self.new }
        ensures kept { Keeps self.old self.new }
        ensures value { IfOk result (IsRefOf self.new.nodes (λ truths.
            test self.old.nodes f truths && test self.old.nodes g truths)) }
        ensures spends { Shares 1 (f ∷ g ∷ []) [] self.old self.new (refusal result) }
    {
        self.ite(f, g, Ref::FALSE)
    }

    /// The function that is true where one of the two is.
    pub fn disj(&mut self, f: Ref, g: Ref) -> Result<Ref, DdAnswer>
        requires f { Holds self.old.nodes f }
        requires g { Holds self.old.nodes g }
        ensures store { IsStore self.new }
        ensures kept { Keeps self.old self.new }
        ensures value { IfOk result (IsRefOf self.new.nodes (λ truths.
            test self.old.nodes f truths || test self.old.nodes g truths)) }
        ensures spends { Shares 1 (f ∷ g ∷ []) [] self.old self.new (refusal result) }
    {
        self.ite(f, Ref::TRUE, g)
    }

    /// The function that is true where this one is false.
    pub fn negate(&mut self, f: Ref) -> Result<Ref, DdAnswer>
        requires { Holds self.old.nodes f }
        ensures store { IsStore self.new }
        ensures kept { Keeps self.old self.new }
        ensures value { IfOk result (IsRefOf self.new.nodes (λ truths.
            not (test self.old.nodes f truths))) }
        ensures spends { Shares 1 (f ∷ []) [] self.old self.new (refusal result) }
    {
        self.ite(f, Ref::FALSE, Ref::TRUE)
    }

    /// The function where the variable has this truth.
    pub fn restrict(&mut self, f: Ref, v: u32, truth: bool) -> Result<Ref, DdAnswer>
        requires { Holds self.old.nodes f }
        ensures store { IsStore self.new }
        ensures kept { Keeps self.old self.new }
        ensures value { IfOk result (IsRefOf self.new.nodes (λ truths.
            test self.old.nodes f (with_truth truths v truth))) }
        ensures spends { Shares 1 (f ∷ []) (v ∷ []) self.old self.new (refusal result) }
    {
        self.answer(Question::Fix(f, v, truth))
    }

    /// The function that is true where some truth of the variable makes this one true.
    pub fn forget_var(&mut self, f: Ref, v: u32) -> Result<Ref, DdAnswer>
        requires { Holds self.old.nodes f }
        ensures store { IsStore self.new }
        ensures kept { Keeps self.old self.new }
        ensures value { IfOk result (IsRefOf self.new.nodes (λ truths.
            test self.old.nodes f (with_truth truths v false)
            || test self.old.nodes f (with_truth truths v true))) }
        ensures spends { Shares 3 (f ∷ []) (v ∷ []) self.old self.new (refusal result) }
    {
        let low = self.restrict(f, v, false)?;
        let high = self.restrict(f, v, true)?;
        self.disj(low, high)
    }

    /// Whether the second function is true wherever the first is.
    pub fn implies(&mut self, f: Ref, g: Ref) -> Result<bool, DdAnswer>
        requires f { Holds self.old.nodes f }
        requires g { Holds self.old.nodes g }
        ensures store { IsStore self.new }
        ensures kept { Keeps self.old self.new }
        ensures value { IfOk result (λ holds. IsTrue holds ↔ Implies self.old.nodes f g) }
        ensures spends { Shares 1 (f ∷ g ∷ []) [] self.old self.new (refusal result) }
    {
        Ok(self.ite(f, g, Ref::TRUE)? == Ref::TRUE)
    }
}
