//! Which operations precede which.

ghost use Rattle.std.specs.Prelude.{◌≡◌, ◌↔◌};
ghost use Rattle.sig_graph.specs.Prelude.{IfOk, OnOk, IsTrue, All, Contains, List, map, slice_get, filter_map, SigId, Holds, operation_in, ComesBefore, Needs};
ghost use Rattle.sig_graph.specs.inner.Graphs.{IsBefore, IsGraph, added};
ghost use Rattle.sig_graph.specs.inner.Memories.{is_equation, keeps_memory};

use crate::numbers::Numbers;
use sig_base::{EqId, SigId};
use sig_clock::Clocks;
use sig_dd::{DdAnswer, Ref, Store};
use sig_plan::{Op, OpKind};
use std::alloc::{AllocError, Global};

/// To each operation the numbers of those that precede it.
pub(crate) fn graph_of(
    alloc: Global,
    ops: &[Op],
    clocks: &Clocks,
    store: &Store,
) -> Result<Vec<Numbers>, DdAnswer>
    requires { All (λ op. Holds store.now.nodes op.guard) ops.now }
    ensures { IfOk result (λ graph. IsGraph clocks.now.conditions store.now.nodes ops.now graph.items) }
{
    let guards = guards_of(alloc, ops)?;
    let supports = store.supports(guards.as_slice())?;
    let mut graph = Vec::new(alloc);
    for (number, q) in ops.iter().enumerate() {
        let variables = supports[number].as_slice();
        let needs = conditions_at(alloc, clocks.conditions.as_slice(), variables)?;
        graph.push(predecessors_of(alloc, ops, q, needs.as_slice(), store)?)?;
    }
    Ok(graph)
}

/// The guards of operations.
fn guards_of(alloc: Global, ops: &[Op]) -> Result<Vec<Ref>, AllocError>
    ensures { IfOk result (λ guards. guards.items ≡ map (λ op. op.guard) ops.now) }
{
    ops.iter().map(|op| op.guard).collect(alloc)
}

/// The numbers of the operations that precede an operation, whose guard needs these conditions.
fn predecessors_of(
    alloc: Global,
    ops: &[Op],
    q: &Op,
    needs: &[SigId],
    store: &Store,
) -> Result<Numbers, DdAnswer>
    requires ops { All (λ op. Holds store.now.nodes op.guard) ops.now }
    requires q { Holds store.now.nodes q.now.guard }
    ensures { IfOk result (λ list. (conditions : List SigId)
        → ((x : SigId) → Contains needs.now x ↔ Needs conditions (operation_in store.now.nodes q.now) x)
        → IsBefore conditions store.now.nodes ops.now q.now list) }
{
    let mut list = Numbers::new(alloc);
    for (number, p) in ops.iter().enumerate() {
        add(&mut list, number, comes_before(p, q, needs, store)?)?;
    }
    Ok(list)
}

/// Adds a number, where it is chosen.
fn add(list: &mut Numbers, number: usize, chosen: bool) -> Result<(), AllocError>
    ensures { OnOk result (list.new ≡ added list.old number chosen) }
{
    if chosen {
        list.push(number)?;
    }
    Ok(())
}

/// The conditions for which variables stand.
fn conditions_at(
    alloc: Global,
    conditions: &[SigId],
    variables: &[u32],
) -> Result<Vec<SigId>, AllocError>
    ensures { IfOk result (λ chosen. chosen.items ≡ filter_map (slice_get conditions.now) variables.now) }
{
    variables
        .iter()
        .filter_map(|v| condition_at(conditions, *v))
        .collect(alloc)
}

/// The condition for which a variable stands.
fn condition_at(conditions: &[SigId], v: u32) -> Option<SigId>
    ensures { result ≡ slice_get conditions.now v }
{
    conditions.get(v as usize).copied()
}

/// Whether an operation precedes another one, whose guard needs these conditions. Whether the guards
/// overlap is asked only where the second one reads what the first one writes.
fn comes_before(p: &Op, q: &Op, needs: &[SigId], store: &Store) -> Result<bool, DdAnswer>
    requires p { Holds store.now.nodes p.now.guard }
    requires q { Holds store.now.nodes q.now.guard }
    ensures { IfOk result (λ holds. (conditions : List SigId)
        → ((x : SigId) → Contains needs.now x ↔ Needs conditions (operation_in store.now.nodes q.now) x)
        → IsTrue holds ↔ ComesBefore conditions (operation_in store.now.nodes p.now) (operation_in store.now.nodes q.now)) }
{
    if keeps_memory(p, q) {
        return Ok(true);
    }
    let Some(x) = p.writes else {
        return Ok(false);
    };
    if needs.contains(&x) {
        return Ok(true);
    }
    if !q.reads.as_slice().contains(&x) {
        return Ok(false);
    }
    store.overlap(p.guard, q.guard)
}

/// Whether the second operation stores into the memory that the first one reads.
fn keeps_memory(p: &Op, q: &Op) -> bool
    ensures { result ≡ keeps_memory p.now.kind p.now.eq q.now.kind }
{
    match q.kind {
        OpKind::Store(e) => matches!(p.kind, OpKind::DelayRead) && is_equation(p.eq, e),
        _ => false,
    }
}

/// Whether there is an equation, and it is this one.
fn is_equation(equation: Option<EqId>, e: EqId) -> bool
    ensures { result ≡ is_equation equation e }
{
    match equation {
        Some(d) => d.0 == e.0,
        None => false,
    }
}
