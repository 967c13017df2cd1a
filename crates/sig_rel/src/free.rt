//! The system of a triangular kernel's clocks.

ghost use Rattle.std.specs.Prelude.{◌≡◌, ◌≤◌};
ghost use Rattle.sig_rel.specs.Prelude.{length, map, slice_index, IfErr, IfOk, MatchOption, OnOk, range_with_len, IsStore, Keeps, IsValid};
ghost use Rattle.sig_rel.specs.inner.FreeColumns.{Adds, AreFilled, AreFresh, IsSystemOf, truth_ref};
ghost use Rattle.sig_rel.specs.Shares.{KeepsToTriangularShare, triangular_share_of};
ghost use Rattle.sig_rel.specs.inner.Substitutions.{present_at};
ghost use Rattle.sig_rel.specs.Systems.{AreConditions, IsFreeSystemOf};
ghost use Rattle.sig_rel.specs.inner.Tables.{IsTriangleOf};
ghost use Rattle.sig_rel.specs.Triangles.{IsTriangular};
ghost use Rattle.sig_rel.specs.declared.answer.RelAnswer.TheVariants.{OutOfMemory};

use crate::answer::RelAnswer;
use crate::numbering::is_boolean;
use crate::placing::{Triangle, triangle_of};
use crate::rules::{Rules, least_of};
use crate::substitution::Columns;
use crate::systems::System;
use sig_base::SigId;
use sig_dd::{DdAnswer, Ref, Store};
use sig_kernel::Kernel;
use std::alloc::{AllocError, Global};

/// The clocks of a triangular kernel, substituted into one another, and None where the kernel is
/// not triangular. The conditions are those of the kernel, in any order: their proposals are the
/// variables, and each proposal is a reaction. It is refused where the store has no room for the
/// nodes that it needs; older references of the store stay. A kernel that is not triangular leaves the
/// store as it was.
pub fn free_system(
    alloc: Global,
    kernel: &Kernel,
    conditions: &[SigId],
    store: &mut Store,
) -> Result<Option<System>, RelAnswer>
    requires valid { IsValid kernel.now }
    requires conditions { AreConditions kernel.now conditions.now }
    ensures store { IsStore store.new }
    ensures kept { Keeps store.old store.new }
    ensures system { IfOk result (λ system. MatchOption system (IsTriangular kernel.now → ⊥)
        (IsFreeSystemOf kernel.now conditions.now store.new.nodes)) }
    ensures share { KeepsToTriangularShare kernel.now store.old store.new result }
    ensures other { (IsTriangular kernel.now → ⊥) → (store.new ≡ store.old) × IfErr result (λ answer. answer ≡ OutOfMemory) }
{
    let _nodes = store.len();
    match triangle_of(alloc, kernel, conditions)? {
        Some(triangle) => {
            let system = substituted(alloc, kernel, conditions, &triangle, store)?;
            Ok(Some(system))
        }
        None => Ok(None),
    }
}

/// The system of a kernel, of which a list that shows that it is triangular is given.
fn substituted(
    alloc: Global,
    kernel: &Kernel,
    conditions: &[SigId],
    triangle: &Triangle,
    store: &mut Store,
) -> Result<System, RelAnswer>
    requires valid { IsValid kernel.now }
    requires store { IsStore store.old }
    requires conditions { AreConditions kernel.now conditions.now }
    requires triangle { IsTriangleOf kernel.now triangle.now }
    ensures store { IsStore store.new }
    ensures kept { Keeps store.old store.new }
    ensures system { IfOk result (IsFreeSystemOf kernel.now conditions.now store.new.nodes) }
    ensures share { KeepsToTriangularShare kernel.now store.old store.new result }
{
    let mut columns = Columns::fresh(alloc, store, kernel.signals.as_slice().len())?;
    columns.fill(store, kernel, conditions, triangle)?;
    Ok(system_of(alloc, kernel, &triangle.rules, &columns, conditions)?)
}

impl Columns {
    /// Writes the clocks of a kernel into columns that are true everywhere: the proposals of its
    /// conditions, and what the others come to.
    fn fill(
        &mut self,
        store: &mut Store,
        kernel: &Kernel,
        conditions: &[SigId],
        triangle: &Triangle,
    ) -> Result<(), DdAnswer>
        requires valid { IsValid kernel.now }
        requires store { IsStore store.old }
        requires conditions { AreConditions kernel.now conditions.now }
        requires triangle { IsTriangleOf kernel.now triangle.now }
        requires fresh { AreFresh store.old.nodes (length kernel.now.signals) self.old }
        ensures adds { Adds (triangular_share_of kernel.now) store.old store.new result }
        ensures filled { OnOk result (AreFilled kernel.now triangle.now conditions.now store.new.nodes self.new) }
    {
        self.propose(store, conditions)?;
        self.write_all(store, kernel, &triangle.rules, triangle.list.as_slice())
    }
}

/// The columns as a system, of which nothing is left to be met.
fn system_of(
    alloc: Global,
    kernel: &Kernel,
    rules: &Rules,
    columns: &Columns,
    conditions: &[SigId],
) -> Result<System, AllocError>
    requires { length conditions.now ≤ 512 }
    ensures { IfOk result (IsSystemOf kernel.now rules.now columns.now conditions.now) }
{
    let (present, truth) = rows_of(alloc, kernel, rules, columns)?;
    Ok(System {
        present,
        truth,
        residue: columns.always,
        speaks: columns.always,
        conditions: Vec::from_slice(alloc, conditions)?,
        proposals: first_numbers(alloc, conditions.len() as u32)?,
        first: 0,
        variables: conditions.len() as u32,
    })
}

/// So many numbers, from 0 on.
fn first_numbers(alloc: Global, count: u32) -> Result<Vec<u32>, AllocError>
    ensures { IfOk result (λ numbers. numbers.items ≡ map (λ number. number) (range_with_len 0 count)) }
{
    (0..count).map(|number| number).collect(alloc)
}

/// The presence of each signal, that of its class, and the truth of each.
pub(crate) fn rows_of(
    alloc: Global,
    kernel: &Kernel,
    rules: &Rules,
    columns: &Columns,
) -> Result<(Vec<Ref>, Vec<Ref>), AllocError>
    ensures present { IfOk result (λ rows. rows.0.items
        ≡ map (λ signal. present_at columns.now (slice_index rules.now.least.items signal))
        (range_with_len 0 (length kernel.now.signals))) }
    ensures truth { IfOk result (λ rows. rows.1.items
        ≡ map (truth_ref kernel.now rules.now columns.now) (range_with_len 0 (length kernel.now.signals))) }
{
    let least = rules.least.as_slice();
    let mut present = Vec::new(alloc);
    let mut truth = Vec::new(alloc);
    for signal in 0..kernel.signals.as_slice().len() {
        present.push(columns.present_at(least_of(least, signal)))?;
        truth.push(truth_of(kernel, rules, columns, signal))?;
    }
    Ok((present, truth))
}

/// The truth of a signal: that of a boolean, and the presence of another signal.
fn truth_of(kernel: &Kernel, rules: &Rules, columns: &Columns, signal: usize) -> Ref
    ensures { result ≡ truth_ref kernel.now rules.now columns.now signal }
{
    if is_boolean(kernel, signal) {
        columns.truth_at(signal)
    } else {
        columns.present_at(least_of(rules.least.as_slice(), signal))
    }
}
