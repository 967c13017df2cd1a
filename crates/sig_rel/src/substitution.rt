//! Clocks of a kernel, substituted into one another.

ghost use Rattle.std.specs.Prelude.{◌≡◌, ◌<◌, ◌∷◌, ◌&&◌};
ghost use Rattle.sig_rel.specs.Prelude.{[], not, ℕ, List, Bool, Some, length, slice_index, IfOk, Agree, constant_truth, same_truth, Holds, IsStore, Spans, test, SpanAll, kind_at};
ghost use Rattle.sig_rel.specs.inner.Elements.{signal_of};
ghost use Rattle.sig_rel.specs.inner.Rules.{presence_by};
ghost use Rattle.sig_rel.specs.Shares.{Makes};
ghost use Rattle.sig_rel.specs.inner.Statuses.{itself};
ghost use Rattle.sig_rel.specs.inner.Substitutions.{Gives, GivesTruth, HoldColumns, IsSet, SpanColumns, operand_at, present_at, row_at, truth_at, values_at};
ghost use Rattle.sig_rel.specs.inner.TruthFunctions.{truth_by, truth_given};

use crate::elements::Element;
use crate::functions::{TruthFunction, truth_function};
use crate::rules::least_of;
use crate::statuses::{Known, same_truth};
use sig_base::{Kind, SigId, Signal};
use sig_dd::{DdAnswer, Ref, Store};
use sig_kernel::{Form, FunOp, Operand};

/// To each signal the presence of the class whose least signal it is, and its truth where it is a
/// boolean, as far as they are written; the others are what they were before.
#[derive(Drop)]
pub(crate) struct Columns {
    pub(crate) rows: Vec<Known>,
    pub(crate) always: Ref,
}

impl Columns {
    /// The presence of a signal.
    pub(crate) fn present_of(&self, least: &[u32], x: SigId) -> Ref
        ensures { result ≡ present_at self.now (slice_index least.now x.0) }
    {
        self.present_at(least_of(least, x.0 as usize))
    }

    /// The presence of a class.
    pub(crate) fn present_at(&self, class: usize) -> Ref
        ensures { result ≡ present_at self.now class }
    {
        self.row(class).present
    }

    /// The truth of a signal.
    pub(crate) fn truth_of(&self, x: SigId) -> Ref
        ensures { result ≡ truth_at self.now x.0 }
    {
        self.truth_at(x.0 as usize)
    }

    /// The truth of the signal of a number.
    pub(crate) fn truth_at(&self, signal: usize) -> Ref
        ensures { result ≡ truth_at self.now signal }
    {
        self.row(signal).truth
    }

    /// What the signal of a number is.
    fn row(&self, signal: usize) -> Known
        ensures { result ≡ row_at self.now signal }
    {
        match self.rows.get(signal) {
            Some(row) => *row,
            None => Known {
                present: self.always,
                truth: self.always,
            },
        }
    }

    /// Writes an element.
    pub(crate) fn set(&mut self, element: Element, value: Ref)
        requires { signal_of element < length self.old.rows.items }
        ensures { IsSet self.old self.new element value }
    {
        match element {
            Element::Presence(class) => self.rows[class as usize].present = value,
            Element::Truth(signal) => self.rows[signal as usize].truth = value,
        }
    }

    /// What an equation of this form gives an element, where it gives it anything.
    pub(crate) fn value(
        &self,
        store: &mut Store,
        signals: &[Signal],
        least: &[u32],
        form: &Form,
        element: Element,
    ) -> Result<Ref, DdAnswer>
        requires { HoldColumns store.old.nodes self.now }
        ensures made { Makes 3 (SpanColumns store.old.nodes self.now) store.old store.new itself result }
        ensures value { IfOk result (Gives store.old.nodes store.new.nodes self.now signals.now least.now form.now element) }
    {
        match element {
            Element::Presence(_) => self.presence(store, least, form),
            Element::Truth(_) => self.truth(store, signals, least, form),
        }
    }

    /// The presence that an equation of this form gives its signal.
    pub(crate) fn presence(
        &self,
        store: &mut Store,
        least: &[u32],
        form: &Form,
    ) -> Result<Ref, DdAnswer>
        requires { HoldColumns store.old.nodes self.now }
        ensures made { Makes 2 (SpanColumns store.old.nodes self.now) store.old store.new itself result }
        ensures value { IfOk result (λ r. (truths : List Bool) → test store.new.nodes r truths
            ≡ presence_by least.now (values_at store.old.nodes self.now truths) form.now) }
    {
        match form {
            Form::When(_, x, b) => {
                let present = self.present_of(least, *b);
                let truth = self.truth_of(*b);
                let other = self.present_of(least, *x);
                both_where(store, present, truth, other)
            }
            Form::WhenConst(_, _, b) => {
                let present = self.present_of(least, *b);
                let truth = self.truth_of(*b);
                store.conj(present, truth)
            }
            Form::Default(_, u, v) => {
                let first = self.present_of(least, *u);
                let second = self.present_of(least, *v);
                store.disj(first, second)
            }
            Form::Fun(_, _, _) | Form::Delay(_, _, _) | Form::Sync(_, _) | Form::Event(_, _) => {
                Ok(store.constant(true))
            }
        }
    }

    /// The truth that an equation of this form gives its signal, where it gives one.
    pub(crate) fn truth(
        &self,
        store: &mut Store,
        signals: &[Signal],
        least: &[u32],
        form: &Form,
    ) -> Result<Ref, DdAnswer>
        requires { HoldColumns store.old.nodes self.now }
        ensures made { Makes 3 (SpanColumns store.old.nodes self.now) store.old store.new itself result }
        ensures value { IfOk result (GivesTruth store.old.nodes store.new.nodes self.now signals.now least.now form.now) }
    {
        match form {
            Form::Fun(_, op, operands) => self.function(store, signals, *op, operands.as_slice()),
            Form::When(_, x, _) => Ok(self.operand(store, Operand::Sig(*x))),
            Form::WhenConst(y, constant, _) => {
                Ok(store.constant(constant_truth(signals, *y, *constant)))
            }
            Form::Default(_, u, v) => {
                let present = self.present_of(least, *u);
                let first = self.truth_of(*u);
                let second = self.truth_of(*v);
                store.ite(present, first, second)
            }
            Form::Event(_, _) | Form::Delay(_, _, _) | Form::Sync(_, _) => Ok(store.constant(true)),
        }
    }

    /// The truth that a function gives, where it gives one.
    fn function(
        &self,
        store: &mut Store,
        signals: &[Signal],
        op: FunOp,
        operands: &[Operand],
    ) -> Result<Ref, DdAnswer>
        requires { HoldColumns store.old.nodes self.now }
        ensures made { Makes 3 (SpanColumns store.old.nodes self.now) store.old store.new itself result }
        ensures value { IfOk result (λ r. (truths : List Bool) (b : Bool)
            → truth_given signals.now op operands.now (operand_at store.old.nodes self.now truths) ≡ Some b
            → test store.new.nodes r truths ≡ b) }
    {
        match truth_function(signals, op, operands) {
            Some(function) => self.function_value(store, function),
            None => Ok(store.constant(true)),
        }
    }

    /// The truth that a function of truths gives.
    pub(crate) fn function_value(
        &self,
        store: &mut Store,
        function: TruthFunction,
    ) -> Result<Ref, DdAnswer>
        requires { HoldColumns store.old.nodes self.now }
        ensures made { Makes 3 (SpanColumns store.old.nodes self.now) store.old store.new itself result }
        ensures value { IfOk result (λ r. Agree (test store.new.nodes r) (λ truths.
            truth_by (operand_at store.old.nodes self.now truths) function)) }
    {
        match function {
            TruthFunction::Same(a) => Ok(self.operand(store, a)),
            TruthFunction::Not(a) => {
                let a = self.operand(store, a);
                store.negate(a)
            }
            TruthFunction::And(a, b) => {
                let a = self.operand(store, a);
                let b = self.operand(store, b);
                store.conj(a, b)
            }
            TruthFunction::Or(a, b) => {
                let a = self.operand(store, a);
                let b = self.operand(store, b);
                store.disj(a, b)
            }
            TruthFunction::Equal(a, b) => {
                let a = self.operand(store, a);
                let b = self.operand(store, b);
                same_truth(store, a, b)
            }
            TruthFunction::Differ(a, b) => {
                let a = self.operand(store, a);
                let b = self.operand(store, b);
                differ(store, a, b)
            }
        }
    }

    /// The truth of an operand.
    fn operand(&self, store: &Store, operand: Operand) -> Ref
        requires { HoldColumns store.now.nodes self.now }
        ensures store { IsStore store.now }
        ensures holds { Holds store.now.nodes result }
        ensures spans { (vs : List ℕ) → SpanColumns store.now.nodes self.now vs → Spans store.now.nodes result vs }
        ensures value { (truths : List Bool) → test store.now.nodes result truths
            ≡ operand_at store.now.nodes self.now truths operand }
    {
        match operand {
            Operand::Sig(x) => {
                let _count = store.len();
                self.truth_of(x)
            }
            Operand::Const(constant) => store.constant(constant == 1),
        }
    }
}

/// Where three functions are true.
fn both_where(store: &mut Store, a: Ref, b: Ref, c: Ref) -> Result<Ref, DdAnswer>
    requires a { Holds store.old.nodes a }
    requires b { Holds store.old.nodes b }
    requires c { Holds store.old.nodes c }
    ensures made { Makes 2 (SpanAll store.old.nodes (a ∷ b ∷ c ∷ [])) store.old store.new itself result }
    ensures value { IfOk result (λ r. Agree (test store.new.nodes r) (λ truths.
        (test store.old.nodes a truths && test store.old.nodes b truths) && test store.old.nodes c truths)) }
{
    let both = store.conj(a, b)?;
    store.conj(both, c)
}

/// Where two functions have different truths.
fn differ(store: &mut Store, a: Ref, b: Ref) -> Result<Ref, DdAnswer>
    requires a { Holds store.old.nodes a }
    requires b { Holds store.old.nodes b }
    ensures made { Makes 3 (SpanAll store.old.nodes (a ∷ b ∷ [])) store.old store.new itself result }
    ensures value { IfOk result (λ r. Agree (test store.new.nodes r) (λ truths.
        not (same_truth (test store.old.nodes a truths) (test store.old.nodes b truths)))) }
{
    let same = same_truth(store, a, b)?;
    store.negate(same)
}

/// The truth that a constant has in a signal.
fn constant_truth(signals: &[Signal], y: SigId, constant: i64) -> bool
    ensures { result ≡ constant_truth (kind_at signals.now y) constant }
{
    match signals.get(y.0 as usize) {
        Some(signal) => match signal.kind {
            Kind::Boolean => constant == 1,
            Kind::Integer | Kind::Event => true,
        },
        None => true,
    }
}
