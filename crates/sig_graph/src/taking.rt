//! Numbers taken in order, each behind those that precede it.

ghost use Rattle.std.specs.Prelude.{◌^◌, ◌<◌};
ghost use Rattle.sig_graph.specs.Prelude.{IfOk, length, numbers_of};
ghost use Rattle.sig_graph.specs.inner.Graphs.{IsTakenOut, IsWithin};

use crate::counts::{counts_of, ready_first, release};
use crate::numbers::Numbers;
use crate::successors::successors_of;
use sig_base::OpId;
use std::alloc::{AllocError, Global};

/// Takes the numbers of a graph, until none is ready: at each place the least that is not taken yet
/// and all of whose predecessors are taken.
pub(crate) fn take_all(alloc: Global, graph: &[Numbers]) -> Result<Vec<OpId>, AllocError>
    requires few { length graph.now < 2 ^ 32 }
    requires within { IsWithin graph.now }
    ensures { IfOk result (λ order. IsTakenOut graph.now (numbers_of order.items)) }
{
    let successors = successors_of(alloc, graph)?;
    let mut counts = counts_of(alloc, graph)?;
    let mut ready = ready_first(alloc, counts.as_slice())?;
    let mut order = Vec::new(alloc);
    while let Some(number) = ready.pop_first() {
        order.push(OpId(number as u32))?;
        release(successors[number].as_slice(), &mut counts, &mut ready)?;
    }
    Ok(order)
}
