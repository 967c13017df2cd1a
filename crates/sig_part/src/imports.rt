//! What each actor imports.

ghost use Rattle.std.specs.Prelude.{◌≡◌, ◌+◌, ◌<◌, ◌^◌, ◌↔◌};
ghost use Rattle.sig_part.specs.Prelude.{List, IfOk, Contains, length, SigId, Node, operations_in, IsOutput, cluster_count};
ghost use Rattle.sig_part.specs.inner.Imported.{AreImportedBy};
ghost use Rattle.sig_part.specs.inner.Uses.{AreNeeded};

use crate::closing::closed;
use crate::marks::Marks;
use crate::needs::Conditions;
use crate::uses::{needed_for_each, used_by};
use sig_base::SigId;
use sig_kernel::Kernel;
use sig_plan::Op;
use std::alloc::{AllocError, Global};

/// Marks what each actor imports: the clusters, of which there are so many, and then the collector. To
/// each operation it is given what its guard needs.
pub(crate) fn imported(
    alloc: Global,
    kernel: &Kernel,
    ops: &[Op],
    needs: &[Conditions],
    clusters: u32,
) -> Result<Vec<Marks>, AllocError>
    requires signals { length kernel.now.signals < 2 ^ 32 }
    requires outputs { kernel.now.inputs + kernel.now.outputs < 2 ^ 32 }
    requires clusters { clusters ≡ cluster_count kernel.now.signals }
    requires needs { length needs.now ≡ length ops.now }
    ensures actors { IfOk result (λ marks. length marks.items ≡ clusters + 1) }
    ensures imports { IfOk result (λ marks. (conditions : List SigId) (nodes : List Node) → AreNeeded conditions nodes ops.now needs.now
        → AreImportedBy kernel.now conditions (operations_in nodes ops.now) (clusters + 1) marks.items) }
{
    let signals = kernel.signals.as_slice();
    let needed = needed_for_each(alloc, signals.len() as u32, ops, needs)?;
    let mut marks = Vec::new(alloc);
    for cluster in 0..clusters {
        let used = used_by(alloc, ops, needs, cluster)?;
        marks.push(closed(alloc, signals, needed.as_slice(), cluster, used.as_slice())?)?;
    }
    let outputs = outputs_of(alloc, kernel)?;
    marks.push(closed(
        alloc,
        signals,
        needed.as_slice(),
        clusters,
        outputs.as_slice(),
    )?)?;
    Ok(marks)
}

/// The outputs of a kernel.
fn outputs_of(alloc: Global, kernel: &Kernel) -> Result<Vec<SigId>, AllocError>
    requires { kernel.now.inputs + kernel.now.outputs < 2 ^ 32 }
    ensures { IfOk result (λ outputs. (x : SigId) → Contains outputs.items x ↔ IsOutput kernel.now x) }
{
    let mut outputs = Vec::new(alloc);
    for number in kernel.inputs..kernel.inputs + kernel.outputs {
        outputs.push(SigId(number))?;
    }
    Ok(outputs)
}
