//! The numbers that a number precedes.

ghost use Rattle.std.specs.Prelude.{◌<◌, [], IfOk, OnOk, All, length};
ghost use Rattle.sig_graph.specs.inner.Counts.{Adds, AreSuccessors};
ghost use Rattle.sig_graph.specs.inner.Graphs.{IsWithin};

use crate::numbers::Numbers;
use std::alloc::{AllocError, Global};

/// To each number those that it precedes.
pub(crate) fn successors_of(alloc: Global, graph: &[Numbers]) -> Result<Vec<Numbers>, AllocError>
    requires within { IsWithin graph.now }
    ensures { IfOk result (λ successors. AreSuccessors (length graph.now) graph.now successors.items) }
{
    let mut successors = none_each(alloc, graph.len())?;
    for (number, predecessors) in graph.iter().enumerate() {
        add_behind(number, predecessors.as_slice(), &mut successors)?;
    }
    Ok(successors)
}

/// So many lists of no number.
fn none_each(alloc: Global, count: usize) -> Result<Vec<Numbers>, AllocError>
    ensures { IfOk result (λ lists. AreSuccessors count [] lists.items) }
{
    let mut lists = Vec::new(alloc);
    for _ in 0..count {
        lists.push(Numbers::new(alloc))?;
    }
    Ok(lists)
}

/// Adds a number to the successors of those that precede it.
fn add_behind(
    number: usize,
    predecessors: &[usize],
    successors: &mut [Numbers],
) -> Result<(), AllocError>
    requires { All (λ p. p < length successors.old) predecessors.now }
    ensures { OnOk result (Adds number predecessors.now successors.old successors.new) }
{
    for p in predecessors {
        successors[*p].push(number)?;
    }
    Ok(())
}
