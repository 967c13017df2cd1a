//! From a kernel to its plan.

ghost use Rattle.std.specs.Prelude.{◌≡◌, ◌≤◌};
ghost use Rattle.sig_back.specs.Prelude.{[], IfErr, IfOk, IsErrAnd, length, LINKS, NODES, HasClocks, AreClocks, IsStore, IsValid, HasOneReaction, IsAcceptedKernel, IsRefusedFor, KernelFault, AreOperations, operations_in, HasNoCycle, IsCompiledOrder, AreParts, numbers_of};
ghost use Rattle.sig_back.specs.Answers.{IsRefusal, IsToldUnlessWanting, IsWanting};
ghost use Rattle.sig_back.specs.Budgets.{Spends};
ghost use Rattle.sig_back.specs.Faults.{told_as};
ghost use Rattle.sig_back.specs.Reacting.{HasLongestTraces};

use crate::answer::BackAnswer;
use crate::fault::BackKind;
use crate::reacting::plans_react;
use crate::telling::{told, told_of_clocks};
use sig_base::OpId;
use sig_base::limits::NODES;
use sig_clock::Clocks;
use sig_code::code;
use sig_dd::Store;
use sig_graph::{GraphAnswer, order};
use sig_kernel::Kernel;
use sig_part::{PartAnswer, split};
use sig_plan::{Op, Parts, Plan, PlanAnswer, operations, operations_need_few_nodes};
use sig_solve::solve;
use std::alloc::Global;

/// The plan of a valid kernel that is accepted, or the first rule of acceptance that it does not meet: some
/// reaction is possible beside the silent one, there is a root, each clock is determined, no condition is
/// forced, no operation precedes itself, and at most 4,096 links are needed. All diagrams stand in one store
/// of at most 8,000,000 nodes; that these do not suffice is never answered for a kernel within the bound.
pub fn back(alloc: Global, kernel: Kernel) -> Result<Plan, BackAnswer>
    requires valid { IsValid kernel }
    ensures plan { IfOk result (λ plan. plan.kernel ≡ kernel) }
    ensures accepted { IfOk result (λ plan. IsAcceptedKernel kernel) }
    ensures few { IfOk result (λ plan. length plan.links ≤ LINKS) }
    ensures room { IfOk result (λ plan. plan.store.made_for ≡ NODES) }
    ensures refused { IfErr result (IsRefusal kernel) }

    // Whatever the delays remember and the inputs have next, exactly one instant that is not silent is possible; so for all
    // flows and limits there is a longest trace.
    ensures reaction { IfOk result (λ plan. HasOneReaction plan.kernel) }
    ensures longest { IfOk result (λ plan. HasLongestTraces plan.kernel) }

    // A kernel that is accepted has its plan given, and one that is refused is refused for its one fault, unless
    // memory runs out or the nodes do not suffice.
    ensures given { IsAcceptedKernel kernel → IfErr result IsWanting }
    ensures first { (fault : KernelFault) → IsRefusedFor kernel fault → IsErrAnd result (IsToldUnlessWanting (told_as kernel fault)) }
{
    match plan_of(alloc, kernel) {
        Ok(plan) => {
            plans_react(&plan);
            Ok(plan)
        }
        Err(answer) => Err(answer),
    }
}

/// The plan of a kernel, or its first fault.
fn plan_of(alloc: Global, kernel: Kernel) -> Result<Plan, BackAnswer>
    requires valid { IsValid kernel }
    ensures plan { IfOk result (λ plan. plan.kernel ≡ kernel) }
    ensures accepted { IfOk result (λ plan. IsAcceptedKernel kernel) }
    ensures few { IfOk result (λ plan. length plan.links ≤ LINKS) }
    ensures room { IfOk result (λ plan. plan.store.made_for ≡ NODES) }
    ensures refused { IfErr result (IsRefusal kernel) }
{
    let mut store = Store::new(alloc, NODES)?;
    let clocks = clocks_of(alloc, &kernel, &mut store)?;
    let ops = operations_of(alloc, &kernel, &clocks, &mut store)?;
    let order = order_of(alloc, &kernel, ops.as_slice(), &clocks, &store)?;
    let parts = parts_of(
        alloc,
        &kernel,
        ops.as_slice(),
        order.as_slice(),
        &clocks,
        &store,
    )?;
    Ok(code(alloc, kernel, clocks, store, ops, order, parts)?)
}

/// The clocks of a kernel, with their guards in a store that was empty.
fn clocks_of(alloc: Global, kernel: &Kernel, store: &mut Store) -> Result<Clocks, BackAnswer>
    requires valid { IsValid kernel.now }
    requires empty { store.old.nodes ≡ [] }
    requires made_for { store.old.made_for ≡ NODES }
    ensures store { IsStore store.new }
    ensures spends { Spends kernel.now store.new }
    ensures clocks { IfOk result (AreClocks kernel.now store.new.nodes) }
    ensures has_clocks { IfOk result (λ clocks. HasClocks kernel.now) }
    ensures refused { IfErr result (IsRefusal kernel.now) }
{
    match solve(alloc, kernel, store) {
        Ok(clocks) => Ok(clocks),
        Err(answer) => Err(told_of_clocks(alloc, kernel, answer)),
    }
}

/// The operations of a kernel, with their guards in the store of its clocks.
fn operations_of(
    alloc: Global,
    kernel: &Kernel,
    clocks: &Clocks,
    store: &mut Store,
) -> Result<Vec<Op>, BackAnswer>
    requires valid { IsValid kernel.now }
    requires spends { Spends kernel.now store.old }
    requires clocks { AreClocks kernel.now store.old.nodes clocks.now }
    ensures store { IsStore store.new }
    ensures made_for { store.new.made_for ≡ NODES }
    ensures clocks { AreClocks kernel.now store.new.nodes clocks.now }
    ensures operations { IfOk result (λ ops. AreOperations kernel.now store.new.nodes clocks.now ops.items) }
    ensures refused { IfErr result (IsRefusal kernel.now) }
{
    operations_need_few_nodes();
    match operations(alloc, kernel, clocks, store) {
        Ok(ops) => Ok(ops),
        Err(PlanAnswer::Budget(_)) => Err(BackAnswer::Budget(NODES)),
        Err(PlanAnswer::OutOfMemory) => Err(BackAnswer::OutOfMemory),
    }
}

/// The compiled order of a kernel's operations.
fn order_of(
    alloc: Global,
    kernel: &Kernel,
    ops: &[Op],
    clocks: &Clocks,
    store: &Store,
) -> Result<Vec<OpId>, BackAnswer>
    requires valid { IsValid kernel.now }
    requires has_clocks { HasClocks kernel.now }
    requires clocks { AreClocks kernel.now store.now.nodes clocks.now }
    requires operations { AreOperations kernel.now store.now.nodes clocks.now ops.now }
    ensures order { IfOk result (λ order. IsCompiledOrder clocks.now.conditions (operations_in store.now.nodes ops.now) (numbers_of order.items)) }
    ensures no_cycle { IfOk result (λ order. HasNoCycle clocks.now.conditions (operations_in store.now.nodes ops.now)) }
    ensures refused { IfErr result (IsRefusal kernel.now) }
{
    match order(alloc, kernel, ops, clocks, store) {
        Ok(order) => Ok(order),
        Err(GraphAnswer::Cycle(x)) => Err(told(alloc, kernel, BackKind::Cycle, &[x])),
        Err(GraphAnswer::OutOfMemory) => Err(BackAnswer::OutOfMemory),
    }
}

/// The parts of a kernel.
fn parts_of(
    alloc: Global,
    kernel: &Kernel,
    ops: &[Op],
    order: &[OpId],
    clocks: &Clocks,
    store: &Store,
) -> Result<Parts, BackAnswer>
    requires valid { IsValid kernel.now }
    requires has_clocks { HasClocks kernel.now }
    requires clocks { AreClocks kernel.now store.now.nodes clocks.now }
    requires operations { AreOperations kernel.now store.now.nodes clocks.now ops.now }
    requires order { IsCompiledOrder clocks.now.conditions (operations_in store.now.nodes ops.now) (numbers_of order.now) }
    requires no_cycle { HasNoCycle clocks.now.conditions (operations_in store.now.nodes ops.now) }
    ensures parts { IfOk result (AreParts kernel.now clocks.now.conditions (operations_in store.now.nodes ops.now)) }
    ensures few { IfOk result (λ parts. length parts.links ≤ LINKS) }
    ensures refused { IfErr result (IsRefusal kernel.now) }
{
    match split(alloc, kernel, ops, order, clocks, store) {
        Ok(parts) => Ok(parts),
        Err(PartAnswer::TooManyLinks(_)) => Err(told(alloc, kernel, BackKind::TooManyLinks, &[])),
        Err(PartAnswer::OutOfMemory) => Err(BackAnswer::OutOfMemory),
    }
}
