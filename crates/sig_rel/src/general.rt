//! The system of any kernel's clocks: what an equation determines is substituted, and what is left to
//! be met is the residue.

ghost use Rattle.std.specs.Prelude.{◌≡◌, ◌≤◌, ◌+◌, ◌*◌, ◌<◌, ◌&&◌, ◌||◌};
ghost use Rattle.sig_rel.specs.Prelude.{ℕ, true, length, map, slice_get, IfOk, OnOk, list_all, Agree, Holds, IsStore, Keeps, test, SpanAll, IsValid};
ghost use Rattle.sig_rel.specs.inner.FreeColumns.{Adds, AreFresh};
ghost use Rattle.sig_rel.specs.inner.GeneralColumns.{AreSubstitutedColumns, IsSystemWith, substituting};
ghost use Rattle.sig_rel.specs.inner.Numberings.{number_of};
ghost use Rattle.sig_rel.specs.inner.OwnColumns.{classes_below, count_one, is_own};
ghost use Rattle.sig_rel.specs.Relations.{IsUnknownCount};
ghost use Rattle.sig_rel.specs.inner.Residues.{IsSomePresent, is_met, left_refs};
ghost use Rattle.sig_rel.specs.inner.Schedules.{IsSchedule};
ghost use Rattle.sig_rel.specs.Shares.{KeepsToShare, Makes};
ghost use Rattle.sig_rel.specs.inner.Statuses.{AreUnknownsOf, LieWithin, itself};
ghost use Rattle.sig_rel.specs.inner.Substitutions.{HoldColumns, SpanColumns, present_at, values_at};
ghost use Rattle.sig_rel.specs.Systems.{AreConditions, IsSystem};

use crate::answer::RelAnswer;
use crate::arranging::arranged;
use crate::free::rows_of;
use crate::numbering::{Unknowns, number_in, unknowns_by};
use crate::rules::Rules;
use crate::schedules::{Schedule, schedule_of};
use crate::substitution::Columns;
use crate::systems::System;
use sig_base::SigId;
use sig_clock::ClockBase;
use sig_dd::{DdAnswer, Ref, Store};
use sig_kernel::Kernel;
use std::alloc::{AllocError, Global};

/// What is left to be met, and where some signal is present.
#[derive(Clone, Copy)]
pub(crate) struct Left {
    pub(crate) residue: Ref,
    pub(crate) speaks: Ref,
}

/// The clocks of a kernel, substituted into one another. The conditions are those of the kernel, in
/// any order. It is refused where the store has no room for the nodes that it needs; older references
/// of the store stay.
pub fn system(
    alloc: Global,
    kernel: &Kernel,
    conditions: &[SigId],
    store: &mut Store,
) -> Result<System, RelAnswer>
    requires valid { IsValid kernel.now }
    requires conditions { AreConditions kernel.now conditions.now }
    ensures store { IsStore store.new }
    ensures kept { Keeps store.old store.new }
    ensures conditions { IfOk result (λ system. system.conditions ≡ conditions.now) }
    ensures system { IfOk result (IsSystem kernel.now store.new.nodes) }
    ensures share { KeepsToShare kernel.now store.old store.new result }
{
    let _nodes = store.len();
    let schedule = schedule_of(alloc, kernel, conditions)?;
    let unknowns = arranged_unknowns(alloc, kernel, &schedule)?;
    let mut columns = Columns::fresh(alloc, store, kernel.signals.as_slice().len())?;
    columns.substitute(store, kernel, &unknowns, &schedule)?;
    let left = columns.left(store, kernel, schedule.rules.least.as_slice())?;
    Ok(system_with(
        alloc,
        kernel,
        conditions,
        &unknowns,
        &schedule.rules,
        &columns,
        left,
    )?)
}

/// The unknowns of a kernel, those of which its schedule links near each other.
fn arranged_unknowns(
    alloc: Global,
    kernel: &Kernel,
    schedule: &Schedule,
) -> Result<Unknowns, ClockBase>
    requires { IsValid kernel.now }
    ensures unknowns { IfOk result (AreUnknownsOf kernel.now) }
    ensures within { IfOk result (LieWithin kernel.now) }
{
    let named = unknowns_by(alloc, kernel, &[])?;
    let order = arranged(alloc, &schedule.links, &named)?;
    unknowns_by(alloc, kernel, order.as_slice())
}

impl Columns {
    /// Writes what each class and each boolean is: its own unknown, and what its equation gives, where
    /// one is named for it.
    fn substitute(
        &mut self,
        store: &mut Store,
        kernel: &Kernel,
        unknowns: &Unknowns,
        schedule: &Schedule,
    ) -> Result<(), DdAnswer>
        requires valid { IsValid kernel.now }
        requires store { IsStore store.old }
        requires unknowns { AreUnknownsOf kernel.now unknowns.now }
        requires within { LieWithin kernel.now unknowns.now }
        requires schedule { IsSchedule kernel.now schedule.now }
        requires fresh { AreFresh store.old.nodes (length kernel.now.signals) self.old }
        ensures adds { (u : ℕ) → IsUnknownCount kernel.now u → Adds (substituting kernel.now u) store.old store.new result }
        ensures substituted { OnOk result (AreSubstitutedColumns kernel.now schedule.now.rules unknowns.now store.new.nodes self.new) }
    {
        self.own(store, schedule.rules.least.as_slice(), unknowns)?;
        self.write_all(store, kernel, &schedule.rules, schedule.list.as_slice())
    }

    /// What is left to be met, and where some signal is present.
    fn left(&self, store: &mut Store, kernel: &Kernel, least: &[u32]) -> Result<Left, DdAnswer>
        requires store { IsStore store.old }
        requires hold { HoldColumns store.old.nodes self.now }
        ensures made { Makes (11 * length kernel.now.equations + classes_below least.now (length least.now))
            (SpanColumns store.old.nodes self.now) store.old store.new left_refs result }
        ensures residue { IfOk result (λ left. Agree (test store.new.nodes left.residue) (λ truths.
            list_all (λ equation. is_met kernel.now.signals least.now (values_at store.old.nodes self.now truths) equation.form)
            kernel.now.equations)) }
        ensures speaks { IfOk result (λ left.
            IsSomePresent store.old.nodes store.new.nodes least.now self.now 0 left.speaks) }
    {
        let residue = self.residue(store, kernel, least)?;
        let speaks = self.some_present(store, least)?;
        Ok(Left { residue, speaks })
    }

    /// Where some class is present. The last class is taken first, so that a chain of variables is made
    /// from its end.
    fn some_present(&self, store: &mut Store, least: &[u32]) -> Result<Ref, DdAnswer>
        requires store { IsStore store.old }
        requires hold { HoldColumns store.old.nodes self.now }
        ensures made { Makes (classes_below least.now (length least.now)) (SpanColumns store.old.nodes self.now)
            store.old store.new itself result }
        ensures value { IfOk result (IsSomePresent store.old.nodes store.new.nodes least.now self.now 0) }
    {
        let mut some = store.constant(false);
        for class in (0..least.len()).rev() {
            some = self.or_present(store, least, class, some)?;
        }
        Ok(some)
    }

    /// Where a function is true, or a class is present.
    fn or_present(
        &self,
        store: &mut Store,
        least: &[u32],
        class: usize,
        some: Ref,
    ) -> Result<Ref, DdAnswer>
        requires store { IsStore store.old }
        requires hold { HoldColumns store.old.nodes self.now }
        requires class { class < length least.now }
        requires some { Holds store.old.nodes some }
        ensures made { Makes (count_one (is_own least.now class))
            (λ vs. SpanColumns store.old.nodes self.now vs × SpanAll store.old.nodes (itself some) vs)
            store.old store.new itself result }
        ensures value { IfOk result (λ r. Agree (test store.new.nodes r) (λ truths.
            (is_own least.now class && test store.old.nodes (present_at self.now class) truths)
            || test store.old.nodes some truths)) }
    {
        let _nodes = store.len();
        if least[class] as usize == class {
            store.disj(self.present_at(class), some)
        } else {
            Ok(some)
        }
    }
}

/// The columns as a system.
fn system_with(
    alloc: Global,
    kernel: &Kernel,
    conditions: &[SigId],
    unknowns: &Unknowns,
    rules: &Rules,
    columns: &Columns,
    left: Left,
) -> Result<System, AllocError>
    requires { unknowns.now.first ≤ unknowns.now.end }
    ensures { IfOk result (IsSystemWith kernel.now rules.now columns.now unknowns.now conditions.now left) }
{
    let (present, truth) = rows_of(alloc, kernel, rules, columns)?;
    Ok(System {
        present,
        truth,
        residue: left.residue,
        speaks: left.speaks,
        conditions: Vec::from_slice(alloc, conditions)?,
        proposals: proposals_of(alloc, unknowns, conditions)?,
        first: unknowns.first,
        variables: unknowns.end - unknowns.first,
    })
}

/// The variables of the conditions' truths.
fn proposals_of(
    alloc: Global,
    unknowns: &Unknowns,
    conditions: &[SigId],
) -> Result<Vec<u32>, AllocError>
    ensures { IfOk result (λ proposals. proposals.items
        ≡ map (λ condition. number_of (slice_get unknowns.now.truth.items condition.0)) conditions.now) }
{
    let mut proposals = Vec::new(alloc);
    for condition in conditions {
        proposals.push(number_in(unknowns.truth.as_slice(), condition.0 as usize))?;
    }
    Ok(proposals)
}
