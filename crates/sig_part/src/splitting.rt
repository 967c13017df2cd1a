//! The parts of a kernel.

ghost use Rattle.std.specs.Prelude.{◌≡◌, ◌+◌, ◌^◌, ◌<◌, ◌≤◌};
ghost use Rattle.sig_part.specs.Prelude.{All, IfErr, IfOk, length, LINKS, AreClocks, Holds, IsValid, AreWritten, AreOperations, operations_in, IsCompiledOrder, AreParts, cluster_count, numbers_of};
ghost use Rattle.sig_part.specs.Answers.{IsRefusal};

use crate::answer::PartAnswer;
use crate::imports::imported;
use crate::links::links_of;
use crate::marks::lists_of;
use crate::needs::needed_by_each;
use sig_base::limits::LINKS;
use sig_base::{OpId, Signal};
use sig_clock::Clocks;
use sig_dd::Store;
use sig_kernel::Kernel;
use sig_plan::{Op, Parts};
use std::alloc::Global;

/// The parts of a kernel: how many clusters there are, the signals that each actor imports, the
/// collector last, and the links, which are at most 4,096. It is refused exactly where more are needed,
/// and before anything is made for each cluster where there are more clusters than that. Only memory can
/// be wanting besides. The parts are the same whatever the order of the operations is.
pub fn split(
    alloc: Global,
    kernel: &Kernel,
    ops: &[Op],
    _order: &[OpId],
    clocks: &Clocks,
    store: &Store,
) -> Result<Parts, PartAnswer>
    requires valid { IsValid kernel.now }
    requires clocks { AreClocks kernel.now store.now.nodes clocks.now }
    requires operations { AreOperations kernel.now store.now.nodes clocks.now ops.now }
    requires order { IsCompiledOrder clocks.now.conditions (operations_in store.now.nodes ops.now) (numbers_of _order.now) }
    ensures parts { IfOk result (AreParts kernel.now clocks.now.conditions (operations_in store.now.nodes ops.now)) }
    ensures few { IfOk result (λ parts. length parts.links ≤ LINKS) }
    ensures refused { IfErr result (IsRefusal kernel.now clocks.now.conditions (operations_in store.now.nodes ops.now)) }
{
    split_of(alloc, kernel, ops, clocks, store)
}

/// The parts of operations whose guards are held by the store.
fn split_of(
    alloc: Global,
    kernel: &Kernel,
    ops: &[Op],
    clocks: &Clocks,
    store: &Store,
) -> Result<Parts, PartAnswer>
    requires signals { length kernel.now.signals < 2 ^ 32 }
    requires outputs { kernel.now.inputs + kernel.now.outputs < 2 ^ 32 }
    requires ops { All (λ op. Holds store.now.nodes op.guard) ops.now }
    ensures parts { IfOk result (λ parts. AreWritten kernel.now.signals (operations_in store.now.nodes ops.now)
        → AreParts kernel.now clocks.now.conditions (operations_in store.now.nodes ops.now) parts) }
    ensures few { IfOk result (λ parts. length parts.links ≤ LINKS) }
    ensures refused { IfErr result (λ answer. AreWritten kernel.now.signals (operations_in store.now.nodes ops.now)
        → IsRefusal kernel.now clocks.now.conditions (operations_in store.now.nodes ops.now) answer) }
{
    let signals = kernel.signals.as_slice();
    let needs = needed_by_each(alloc, ops, clocks, store)?;
    let count = cluster_count(signals);
    // Each cluster has a link for its reports.
    if count > u64::from(LINKS) {
        return Err(PartAnswer::TooManyLinks(LINKS));
    }
    let clusters = count as u32;
    let marks = imported(alloc, kernel, ops, needs.as_slice(), clusters)?;
    let links = links_of(alloc, signals, clusters, marks.as_slice())?;
    let imports = lists_of(alloc, signals.len() as u32, marks.as_slice())?;
    if links.len() > LINKS as usize {
        return Err(PartAnswer::TooManyLinks(LINKS));
    }
    Ok(Parts {
        clusters,
        links,
        imports,
    })
}

/// How many clusters there are: one more than the greatest cluster of a signal.
fn cluster_count(signals: &[Signal]) -> u64
    ensures { result ≡ cluster_count signals.now }
{
    signals
        .iter()
        .map(|signal| u64::from(signal.cluster) + 1)
        .fold(1, |count, other| count.max(other))
}
