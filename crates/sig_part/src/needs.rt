//! The conditions that the guards of operations need.

ghost use Rattle.std.specs.Prelude.{◌≡◌, ◌↔◌};
ghost use Rattle.sig_part.specs.Prelude.{IfOk, All, Contains, map, slice_get, filter_map, SigId, Holds, operation_in, Needs};
ghost use Rattle.sig_part.specs.inner.Uses.{AreNeeded};

use sig_base::SigId;
use sig_clock::Clocks;
use sig_dd::{DdAnswer, Ref, Store};
use sig_plan::Op;
use std::alloc::{AllocError, Global};
use std::marker::Model;

/// Conditions that guards need. Contracts see the list.
#[derive(Drop)]
pub(crate) struct Conditions {
    list: Vec<SigId>,
}

impl Model for Conditions {
    ghost use Rattle.sig_part.specs.Prelude.{List, SigId};

    ghost Value = { List SigId };

    ghost view = { λ conditions. conditions.list.items };
}

impl Conditions {
    /// The conditions.
    pub(crate) fn as_slice(&self) -> &[SigId]
        ensures { result.now ≡ self.now }
    {
        self.list.as_slice()
    }
}

impl From<Vec<SigId>> for Conditions {
    ghost from_gives = { λ list conditions. conditions ≡ list.items };

    fn from(list: Vec<SigId>) -> Conditions {
        Conditions { list }
    }
}

/// To each operation the conditions that its guard needs.
pub(crate) fn needed_by_each(
    alloc: Global,
    ops: &[Op],
    clocks: &Clocks,
    store: &Store,
) -> Result<Vec<Conditions>, DdAnswer>
    requires { All (λ op. Holds store.now.nodes op.guard) ops.now }
    ensures { IfOk result (λ needs. AreNeeded clocks.now.conditions store.now.nodes ops.now needs.items) }
{
    let guards = guards_of(alloc, ops)?;
    let supports = store.supports(guards.as_slice())?;
    let mut needs = Vec::new(alloc);
    for variables in supports.as_slice() {
        let list = conditions_at(alloc, clocks.conditions.as_slice(), variables.as_slice())?;
        needs.push(Conditions::from(list))?;
    }
    Ok(needs)
}

/// The guards of operations.
fn guards_of(alloc: Global, ops: &[Op]) -> Result<Vec<Ref>, AllocError>
    ensures { IfOk result (λ guards. guards.items ≡ map (λ op. op.guard) ops.now) }
{
    ops.iter().map(|op| op.guard).collect(alloc)
}

/// The conditions for which variables stand.
fn conditions_at(
    alloc: Global,
    conditions: &[SigId],
    variables: &[u32],
) -> Result<Vec<SigId>, AllocError>
    ensures { IfOk result (λ chosen. chosen.items ≡ filter_map (slice_get conditions.now) variables.now) }
{
    variables
        .iter()
        .filter_map(|v| condition_at(conditions, *v))
        .collect(alloc)
}

/// The condition for which a variable stands.
fn condition_at(conditions: &[SigId], v: u32) -> Option<SigId>
    ensures { result ≡ slice_get conditions.now v }
{
    conditions.get(v as usize).copied()
}
