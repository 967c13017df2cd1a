//! Columns in which elements are variables: each class and each boolean its own unknown, or the
//! conditions alone.

ghost use Rattle.std.specs.Prelude.{◌≡◌, ◌<◌, ◌≤◌, ◌+◌};
ghost use Rattle.sig_rel.specs.Prelude.{ℕ, Some, is_some, length, slice_get, IfOk, OnOk, SigId, IsStore};
ghost use Rattle.sig_rel.specs.inner.Elements.{signal_of};
ghost use Rattle.sig_rel.specs.inner.FreeColumns.{Adds, AreFresh, IsProposal};
ghost use Rattle.sig_rel.specs.inner.OwnColumns.{AreOwnColumns, IsUnknownWhere, classes_below, count_one, truths_below, unknown_of};
ghost use Rattle.sig_rel.specs.inner.Variables.{AreVariables, IsVariableAt};

use crate::elements::Element;
use crate::firsts::row;
use crate::numbering::Unknowns;
use crate::rules::least_of;
use crate::statuses::Known;
use crate::substitution::Columns;
use sig_base::SigId;
use sig_dd::{DdAnswer, Store};
use std::alloc::{AllocError, Global};

impl Columns {
    /// Columns of so many signals, true everywhere.
    pub(crate) fn fresh(alloc: Global, store: &Store, count: usize) -> Result<Columns, AllocError>
        requires { count ≤ 512 }
        ensures { IfOk result (AreFresh store.now.nodes count) }
    {
        let always = store.constant(true);
        let row = Known {
            present: always,
            truth: always,
        };
        Ok(Columns {
            rows: vec![in alloc; row; count]?,
            always,
        })
    }

    /// Makes the truths of these conditions variables, in their order.
    pub(crate) fn propose(
        &mut self,
        store: &mut Store,
        conditions: &[SigId],
    ) -> Result<(), DdAnswer>
        requires store { IsStore store.old }
        requires few { length conditions.now ≤ 512 }
        requires within { (i : ℕ) (condition : SigId) → slice_get conditions.now i ≡ Some condition
            → condition.0 < length self.old.rows.items }
        requires once { (i j : ℕ) (condition : SigId) → slice_get conditions.now i ≡ Some condition
            → slice_get conditions.now j ≡ Some condition → i ≡ j }
        ensures adds { Adds (length conditions.now) store.old store.new result }
        ensures proposed { OnOk result (AreVariables store.new.nodes (IsProposal conditions.now) self.old self.new) }
    {
        for (v, condition) in conditions.iter().enumerate() {
            self.set_variable(store, Element::Truth(condition.0), Some(v as u32))?;
        }
        Ok(())
    }

    /// Makes the presence of each class and the truth of each boolean its own unknown.
    pub(crate) fn own(
        &mut self,
        store: &mut Store,
        least: &[u32],
        unknowns: &Unknowns,
    ) -> Result<(), DdAnswer>
        requires store { IsStore store.old }
        requires few { length least.now ≤ 512 }
        requires presences { length unknowns.now.present.items ≡ length least.now }
        requires truths { length unknowns.now.truth.items ≡ length least.now }
        requires fresh { AreFresh store.old.nodes (length least.now) self.old }
        ensures adds { Adds (classes_below least.now (length least.now)
            + truths_below unknowns.now.truth.items (length unknowns.now.truth.items)) store.old store.new result }
        ensures own { OnOk result (AreOwnColumns store.new.nodes least.now unknowns.now self.new) }
    {
        for signal in 0..least.len() {
            self.own_signal(store, least, unknowns, signal as u32)?;
        }
        Ok(())
    }

    /// Makes the presence and the truth that have the number of a signal their own unknowns.
    fn own_signal(
        &mut self,
        store: &mut Store,
        least: &[u32],
        unknowns: &Unknowns,
        signal: u32,
    ) -> Result<(), DdAnswer>
        requires store { IsStore store.old }
        requires within { signal < length self.old.rows.items }
        ensures adds { Adds (count_one (is_some (unknown_of least.now unknowns.now (Element.Presence signal)))
            + count_one (is_some (unknown_of least.now unknowns.now (Element.Truth signal)))) store.old store.new result }
        ensures own { OnOk result (AreVariables store.new.nodes
            (IsUnknownWhere (λ s. s ≡ signal) least.now unknowns.now) self.old self.new) }
    {
        let present = unknown_of(least, unknowns, Element::Presence(signal));
        self.set_variable(store, Element::Presence(signal), present)?;
        let truth = unknown_of(least, unknowns, Element::Truth(signal));
        self.set_variable(store, Element::Truth(signal), truth)
    }

    /// Makes an element a variable, if one is given.
    fn set_variable(
        &mut self,
        store: &mut Store,
        element: Element,
        variable: Option<u32>,
    ) -> Result<(), DdAnswer>
        requires store { IsStore store.old }
        requires within { signal_of element < length self.old.rows.items }
        ensures adds { Adds (count_one (is_some variable)) store.old store.new result }
        ensures set { OnOk result (AreVariables store.new.nodes (IsVariableAt element variable) self.old self.new) }
    {
        let _nodes = store.len();
        match variable {
            Some(v) => {
                let value = store.variable(v)?;
                self.set(element, value);
                Ok(())
            }
            None => Ok(()),
        }
    }
}

/// The unknown of an element, if it has one.
fn unknown_of(least: &[u32], unknowns: &Unknowns, element: Element) -> Option<u32>
    ensures { result ≡ unknown_of least.now unknowns.now element }
{
    match element {
        Element::Presence(class) => {
            if least_of(least, class as usize) == class as usize {
                unknowns.present.get(class as usize).copied()
            } else {
                None
            }
        }
        Element::Truth(signal) => row(unknowns.truth.as_slice(), signal as usize),
    }
}
