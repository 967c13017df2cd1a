//! The code of each actor, and the plan.

ghost use Rattle.std.specs.Prelude.{◌≡◌, ◌+◌, ◌<◌};
ghost use Rattle.sig_code.specs.Prelude.{All, IfOk, length, HasClocks, AreClocks, Holds as HoldsRef, IsStore, IsValid, instructions_of, AreOperations, operations_in, IsCompiledOrder, AreParts, numbers_of};
ghost use Rattle.sig_code.specs.inner.Coding.{AreCodesOf};
ghost use Rattle.sig_code.specs.Made.{Holds};
ghost use Rattle.sig_code.specs.inner.Turns.{parts_of};

use crate::answer::CodeAnswer;
use crate::routes::routes_of_each;
use crate::steps::Source;
use sig_base::OpId;
use sig_clock::Clocks;
use sig_dd::Store;
use sig_kernel::Kernel;
use sig_plan::{Code, LinkInfo, Op, Parts, Plan};
use std::alloc::Global;

/// The plan of a kernel that has clocks, from its operations, their compiled order and its parts: the code
/// of each actor, the collector's last, and what was handed in, of the parts the links. Only memory can be wanting; what was
/// handed in is then dropped.
pub fn code(
    alloc: Global,
    kernel: Kernel,
    clocks: Clocks,
    store: Store,
    ops: Vec<Op>,
    order: Vec<OpId>,
    parts: Parts,
) -> Result<Plan, CodeAnswer>
    requires valid { IsValid kernel }
    requires has_clocks { HasClocks kernel }
    requires clocks { AreClocks kernel store.nodes clocks }
    requires operations { AreOperations kernel store.nodes clocks ops.items }
    requires order { IsCompiledOrder clocks.conditions (operations_in store.nodes ops.items) (numbers_of order.items) }
    requires parts { AreParts kernel clocks.conditions (operations_in store.nodes ops.items) parts }
    ensures { IfOk result (Holds kernel clocks store ops.items order.items parts) }
{
    let Parts {
        clusters,
        links,
        ..
    } = parts;
    let codes = codes_of(
        alloc,
        &store,
        ops.as_slice(),
        order.as_slice(),
        links.as_slice(),
        clusters,
    )?;
    Ok(Plan {
        kernel,
        clocks,
        store,
        ops,
        order,
        links,
        codes,
    })
}

/// The codes of the clusters, and the collector's last.
fn codes_of(
    alloc: Global,
    store: &Store,
    ops: &[Op],
    order: &[OpId],
    links: &[LinkInfo],
    clusters: u32,
) -> Result<Vec<Code>, CodeAnswer>
    requires held { All (λ op. HoldsRef store.now.nodes op.guard) ops.now }
    requires within { All (λ op. op.0 < length ops.now) order.now }
    requires places { length order.now ≡ length ops.now }
    ensures store { IfOk result (λ _. IsStore store.now) }
    ensures codes { IfOk result (λ codes. AreCodesOf store.now.nodes
        (instructions_of (operations_in store.now.nodes ops.now) (numbers_of order.now) (parts_of clusters links.now)) (clusters + 1) codes.items) }
{
    // More operations than there are positions for them, or more links than there are numbers, find no
    // memory.
    if ops.len() > (u32::MAX / 2) as usize || links.len() > u32::MAX as usize {
        return Err(CodeAnswer::OutOfMemory);
    }
    let routes = routes_of_each(alloc, ops, links)?;
    let source = Source {
        store,
        ops,
        order,
        links,
        routes: routes.as_slice(),
        clusters,
        unguarded: store.constant(true),
    };
    source.codes(alloc)
}
