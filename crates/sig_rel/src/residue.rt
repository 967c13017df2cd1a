//! What is left to be met of the equations, over columns.

ghost use Rattle.std.specs.Prelude.{◌≡◌, ◌*◌, ◌&&◌, ◌∷◌, if◌then◌else◌};
ghost use Rattle.sig_rel.specs.Prelude.{[], ℕ, Bool, true, List, None, Some, length, IfOk, list_all, has_truth, same_status, where_present, Agree, Holds, IsStore, test, SpanAll};
ghost use Rattle.sig_rel.specs.inner.Residues.{IsOwnStatus, is_met};
ghost use Rattle.sig_rel.specs.inner.Rules.{presence_by, truth_by_form, value_status};
ghost use Rattle.sig_rel.specs.Shares.{Makes};
ghost use Rattle.sig_rel.specs.inner.Statuses.{itself};
ghost use Rattle.sig_rel.specs.inner.Substitutions.{HoldColumns, SpanColumns, operand_at, values_at};
ghost use Rattle.sig_rel.specs.inner.TruthFunctions.{truth_given};

use crate::functions::truth_function;
use crate::statuses::Known;
use crate::substitution::Columns;
use sig_base::{SigId, Signal};
use sig_dd::{DdAnswer, Ref, Store};
use sig_kernel::{Form, FunOp, Kernel, Operand};

impl Columns {
    /// Where all equations are met. Of each class the least signal is given.
    pub(crate) fn residue(
        &self,
        store: &mut Store,
        kernel: &Kernel,
        least: &[u32],
    ) -> Result<Ref, DdAnswer>
        requires store { IsStore store.old }
        requires hold { HoldColumns store.old.nodes self.now }
        ensures made { Makes (11 * length kernel.now.equations) (SpanColumns store.old.nodes self.now) store.old store.new itself result }
        ensures value { IfOk result (λ r. Agree (test store.new.nodes r) (λ truths.
            list_all (λ equation. is_met kernel.now.signals least.now (values_at store.old.nodes self.now truths) equation.form)
            kernel.now.equations)) }
    {
        let signals = kernel.signals.as_slice();
        let mut whole = store.constant(true);
        for equation in kernel.equations.as_slice() {
            whole = self.join(store, signals, least, &equation.form, whole)?;
        }
        Ok(whole)
    }

    /// Where a function is true and the equation of this form is met.
    fn join(
        &self,
        store: &mut Store,
        signals: &[Signal],
        least: &[u32],
        form: &Form,
        whole: Ref,
    ) -> Result<Ref, DdAnswer>
        requires hold { HoldColumns store.old.nodes self.now }
        requires whole { Holds store.old.nodes whole }
        ensures made { Makes 11 (λ vs. SpanColumns store.old.nodes self.now vs × SpanAll store.old.nodes (itself whole) vs)
            store.old store.new itself result }
        ensures value { IfOk result (λ r. Agree (test store.new.nodes r) (λ truths.
            test store.old.nodes whole truths
            && is_met signals.now least.now (values_at store.old.nodes self.now truths) form.now)) }
    {
        let met = self.meets(store, signals, least, form)?;
        store.conj(whole, met)
    }

    /// Where the equation of this form is met. That of a Delay or a Sync says no more than that signals
    /// are of one class.
    fn meets(
        &self,
        store: &mut Store,
        signals: &[Signal],
        least: &[u32],
        form: &Form,
    ) -> Result<Ref, DdAnswer>
        requires { HoldColumns store.old.nodes self.now }
        ensures made { Makes 10 (SpanColumns store.old.nodes self.now) store.old store.new itself result }
        ensures value { IfOk result (λ r. Agree (test store.new.nodes r) (λ truths.
            is_met signals.now least.now (values_at store.old.nodes self.now truths) form.now)) }
    {
        match form {
            Form::Fun(y, op, operands) => {
                self.meets_function(store, signals, least, *y, *op, operands.as_slice())
            }
            Form::When(y, _, _) | Form::WhenConst(y, _, _) | Form::Default(y, _, _) => {
                self.meets_given(store, signals, least, *y, form)
            }
            Form::Event(y, x) => self.meets_event(store, least, *y, *x),
            Form::Delay(_, _, _) | Form::Sync(_, _) => Ok(store.constant(true)),
        }
    }

    /// Where a signal is absent, or has the truth that a function gives, if it gives one.
    fn meets_function(
        &self,
        store: &mut Store,
        signals: &[Signal],
        least: &[u32],
        y: SigId,
        op: FunOp,
        operands: &[Operand],
    ) -> Result<Ref, DdAnswer>
        requires { HoldColumns store.old.nodes self.now }
        ensures made { Makes 6 (SpanColumns store.old.nodes self.now) store.old store.new itself result }
        ensures value { IfOk result (λ r. Agree (test store.new.nodes r) (λ truths.
            has_truth (value_status least.now (values_at store.old.nodes self.now truths) y.0)
            (truth_given signals.now op operands.now (operand_at store.old.nodes self.now truths)))) }
    {
        match truth_function(signals, op, operands) {
            Some(function) => {
                let value = self.function_value(store, function)?;
                self.status_of(least, y).may_have(store, value)
            }
            None => Ok(store.constant(true)),
        }
    }

    /// Where a signal is what an equation of this form gives.
    fn meets_given(
        &self,
        store: &mut Store,
        signals: &[Signal],
        least: &[u32],
        y: SigId,
        form: &Form,
    ) -> Result<Ref, DdAnswer>
        requires { HoldColumns store.old.nodes self.now }
        ensures made { Makes 10 (SpanColumns store.old.nodes self.now) store.old store.new itself result }
        ensures value { IfOk result (λ r. (truths : List Bool) (b : Bool)
            → truth_by_form signals.now least.now (values_at store.old.nodes self.now truths) form.now ≡ Some b
            → test store.new.nodes r truths
            ≡ same_status (value_status least.now (values_at store.old.nodes self.now truths) y.0)
            (if presence_by least.now (values_at store.old.nodes self.now truths) form.now then Some b else None)) }
    {
        let present = self.presence(store, least, form)?;
        let truth = self.truth(store, signals, least, form)?;
        self.status_of(least, y)
            .same(store, Known { present, truth })
    }

    /// Where a signal is true exactly where another one is present.
    fn meets_event(
        &self,
        store: &mut Store,
        least: &[u32],
        y: SigId,
        x: SigId,
    ) -> Result<Ref, DdAnswer>
        requires { HoldColumns store.old.nodes self.now }
        ensures made { Makes 5 (SpanColumns store.old.nodes self.now) store.old store.new itself result }
        ensures value { IfOk result (λ r. Agree (test store.new.nodes r) (λ truths.
            same_status (value_status least.now (values_at store.old.nodes self.now truths) y.0)
            (where_present (value_status least.now (values_at store.old.nodes self.now truths) x.0) true))) }
    {
        let present = self.present_of(least, x);
        let truth = store.constant(true);
        self.status_of(least, y)
            .same(store, Known { present, truth })
    }

    /// What a signal is.
    fn status_of(&self, least: &[u32], x: SigId) -> Known
        ensures { IsOwnStatus least.now self.now x.0 result }
    {
        Known {
            present: self.present_of(least, x),
            truth: self.truth_of(x),
        }
    }
}
