//! Columns, written in an order in which each class and boolean stands behind what its equation reads.

ghost use Rattle.std.specs.Prelude.{◌≡◌, ◌*◌, ◌<◌};
ghost use Rattle.sig_rel.specs.Prelude.{length, IfOk, MatchOption, OnOk, IsStore, IsValid};
ghost use Rattle.sig_rel.specs.inner.Elements.{IsCut, IsGiven, signal_of};
ghost use Rattle.sig_rel.specs.Shares.{Makes};
ghost use Rattle.sig_rel.specs.inner.Substitutions.{ArePlain, HoldColumns, IsPartlyWritten, IsWritten, SpanColumns, no_ref, step_at, steps};
ghost use Rattle.sig_rel.specs.inner.Schedules.{IsOrderOfWriting};

use crate::elements::Element;
use crate::rules::Rules;
use crate::substitution::Columns;
use sig_dd::{DdAnswer, Store};
use sig_kernel::{Form, Kernel};

/// The form of the equation that the tables have for an element, if they have one.
pub(crate) fn form_for<'k>(kernel: &'k Kernel, rules: &Rules, element: Element) -> Option<&'k Form>
    ensures { MatchOption result (IsCut kernel.now rules.now element)
        (λ form. IsGiven kernel.now rules.now element form.now) }
{
    let entry = match element {
        Element::Presence(class) => rules.counted.get(class as usize),
        Element::Truth(signal) => rules.defined.get(signal as usize),
    };
    match entry {
        Some(Some(number)) => match kernel.equations.as_slice().get(*number as usize) {
            Some(equation) => Some(&equation.form),
            None => None,
        },
        Some(None) | None => None,
    }
}

impl Columns {
    /// Writes an element, if an equation gives it.
    fn write(
        &mut self,
        store: &mut Store,
        kernel: &Kernel,
        rules: &Rules,
        element: Element,
    ) -> Result<(), DdAnswer>
        requires store { IsStore store.old }
        requires hold { HoldColumns store.old.nodes self.old }
        requires within { signal_of element < length self.old.rows.items }
        ensures made { Makes (3 * step_at rules.now element) (SpanColumns store.old.nodes self.old) store.old store.new no_ref result }
        ensures written { OnOk result (IsWritten kernel.now rules.now store.old.nodes store.new.nodes self.old self.new element) }
    {
        let _nodes = store.len();
        match form_for(kernel, rules, element) {
            Some(form) => {
                let signals = kernel.signals.as_slice();
                let value = self.value(store, signals, rules.least.as_slice(), form, element)?;
                self.set(element, value);
                Ok(())
            }
            None => Ok(()),
        }
    }

    /// Writes the elements of a list, in order.
    pub(crate) fn write_all(
        &mut self,
        store: &mut Store,
        kernel: &Kernel,
        rules: &Rules,
        list: &[Element],
    ) -> Result<(), DdAnswer>
        requires valid { IsValid kernel.now }
        requires order { IsOrderOfWriting kernel.now rules.now list.now }
        requires store { IsStore store.old }
        requires hold { HoldColumns store.old.nodes self.old }
        requires count { length self.old.rows.items ≡ length kernel.now.signals }
        requires plain { ArePlain kernel.now store.old.nodes self.old }
        ensures made { Makes (3 * steps rules.now list.now) (SpanColumns store.old.nodes self.old) store.old store.new no_ref result }
        ensures written { OnOk result (IsPartlyWritten kernel.now rules.now store.old.nodes store.new.nodes self.old self.new list.now) }
    {
        for element in list {
            self.write(store, kernel, rules, *element)?;
        }
        Ok(())
    }
}
