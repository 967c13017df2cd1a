//! The compiled order.

ghost use Rattle.sig_graph.specs.Prelude.{All, IfErr, IfOk, AreClocks, Holds, IsValid, AreOperations, operations_in, HasNoCycle, IsCompiledOrder, numbers_of};
ghost use Rattle.sig_graph.specs.Answers.{IsRefusal};

use crate::answer::GraphAnswer;
use crate::cycles::least_on_cycle;
use crate::graph::graph_of;
use crate::taking::take_all;
use sig_base::OpId;
use sig_clock::Clocks;
use sig_dd::Store;
use sig_kernel::Kernel;
use sig_plan::Op;
use std::alloc::Global;

/// The compiled order of a kernel's operations: at each place the least-numbered operation that is not
/// taken yet and all of whose predecessors are taken. It is refused where an operation precedes itself,
/// directly or through others, with the least signal that such an operation writes. Only memory can be
/// wanting besides.
pub fn order(
    alloc: Global,
    kernel: &Kernel,
    ops: &[Op],
    clocks: &Clocks,
    store: &Store,
) -> Result<Vec<OpId>, GraphAnswer>
    requires valid { IsValid kernel.now }
    requires clocks { AreClocks kernel.now store.now.nodes clocks.now }
    requires operations { AreOperations kernel.now store.now.nodes clocks.now ops.now }
    ensures order { IfOk result (λ order. IsCompiledOrder clocks.now.conditions (operations_in store.now.nodes ops.now) (numbers_of order.items)) }
    ensures no_cycle { IfOk result (λ _. HasNoCycle clocks.now.conditions (operations_in store.now.nodes ops.now)) }
    ensures cycle { IfErr result (IsRefusal clocks.now.conditions (operations_in store.now.nodes ops.now)) }
{
    order_of(alloc, ops, clocks, store)
}

/// The order of operations whose guards are held by the store.
fn order_of(
    alloc: Global,
    ops: &[Op],
    clocks: &Clocks,
    store: &Store,
) -> Result<Vec<OpId>, GraphAnswer>
    requires { All (λ op. Holds store.now.nodes op.guard) ops.now }
    ensures order { IfOk result (λ order. IsCompiledOrder clocks.now.conditions (operations_in store.now.nodes ops.now) (numbers_of order.items)) }
    ensures no_cycle { IfOk result (λ _. HasNoCycle clocks.now.conditions (operations_in store.now.nodes ops.now)) }
    ensures cycle { IfErr result (IsRefusal clocks.now.conditions (operations_in store.now.nodes ops.now)) }
{
    // More operations than there are numbers for them find no memory.
    if ops.len() > u32::MAX as usize {
        return Err(GraphAnswer::OutOfMemory);
    }
    let graph = graph_of(alloc, ops, clocks, store)?;
    let order = take_all(alloc, graph.as_slice())?;
    if order.len() == ops.len() {
        return Ok(order);
    }
    // Some operations wait for ever, as they do only behind one that precedes itself.
    match least_on_cycle(alloc, graph.as_slice(), ops)? {
        Some(x) => Err(GraphAnswer::Cycle(x)),
        None => Ok(order),
    }
}
