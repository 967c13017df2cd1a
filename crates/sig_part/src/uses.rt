//! What operations read and what their guards need, by cluster and by written signal.

ghost use Rattle.std.specs.Prelude.{◌≡◌, ◌↔◌};
ghost use Rattle.sig_part.specs.Prelude.{IfOk, IsTrue, Contains, length, SigId};
ghost use Rattle.sig_part.specs.inner.Uses.{AreNeededForEach, IsNeededWithin, IsUsedWithin};

use crate::needs::Conditions;
use sig_base::SigId;
use sig_plan::Op;
use std::alloc::{AllocError, Global};

/// What the operations of a cluster read, and what their guards need.
pub(crate) fn used_by(
    alloc: Global,
    ops: &[Op],
    needs: &[Conditions],
    cluster: u32,
) -> Result<Vec<SigId>, AllocError>
    requires { length needs.now ≡ length ops.now }
    ensures { IfOk result (λ used. (x : SigId) → Contains used.items x ↔ IsUsedWithin ops.now needs.now cluster (length ops.now) x) }
{
    let mut used = Vec::new(alloc);
    for (number, op) in ops.iter().enumerate() {
        if op.actor == cluster {
            used.extend_from_slice(op.reads.as_slice())?;
            used.extend_from_slice(needs[number].as_slice())?;
        }
    }
    Ok(used)
}

/// To each signal the conditions that the guards of the operations need which write it.
pub(crate) fn needed_for_each(
    alloc: Global,
    count: u32,
    ops: &[Op],
    needs: &[Conditions],
) -> Result<Vec<Conditions>, AllocError>
    requires { length needs.now ≡ length ops.now }
    ensures { IfOk result (λ needed. AreNeededForEach ops.now needs.now count needed.items) }
{
    let mut needed = Vec::new(alloc);
    for number in 0..count {
        needed.push(needed_for(alloc, SigId(number), ops, needs)?)?;
    }
    Ok(needed)
}

/// The conditions that the guards of the operations need which write a signal.
fn needed_for(
    alloc: Global,
    x: SigId,
    ops: &[Op],
    needs: &[Conditions],
) -> Result<Conditions, AllocError>
    requires { length needs.now ≡ length ops.now }
    ensures { IfOk result (λ needed. (condition : SigId) → Contains needed condition
        ↔ IsNeededWithin ops.now needs.now x (length ops.now) condition) }
{
    let mut needed = Vec::new(alloc);
    for (number, op) in ops.iter().enumerate() {
        if writes(op, x) {
            needed.extend_from_slice(needs[number].as_slice())?;
        }
    }
    Ok(Conditions::from(needed))
}

/// Whether an operation writes a signal.
fn writes(op: &Op, x: SigId) -> bool
    ensures { IsTrue result ↔ (op.now.writes ≡ Some x) }
{
    op.writes == Some(x)
}
