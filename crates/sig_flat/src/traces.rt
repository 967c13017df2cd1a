//! The traces of the kernel of a flat body are those of the flat body.

ghost use Rattle.std.specs.Prelude.{◌≡◌};
ghost use Rattle.sig_flat.specs.Prelude.{length, Trace, IsWellMade, IsKernelTrace, FlatBody, IsProcessTrace};
ghost use Rattle.sig_flat.specs.KernelOf.{kernel_of};
ghost use Rattle.sig_flat.specs.Restricted.{restricted};

use sig_tree::{equations_step, expressions_step};

/// A law: the traces of the kernel of a well-made flat body, restricted to the flat body's signals, are
/// exactly the traces of the process, and each of these comes from one kernel trace.
pub fn kernel_traces_are_process_traces()
    ensures restricted { (flat : FlatBody) (trace : Trace) → IsWellMade flat → IsKernelTrace (kernel_of flat) trace
        → IsProcessTrace flat (restricted (length flat.signals) trace) }
    ensures extended { (flat : FlatBody) (trace : Trace) → IsWellMade flat → IsProcessTrace flat trace
        → (whole : Trace) × IsKernelTrace (kernel_of flat) whole × (restricted (length flat.signals) whole ≡ trace) }
    ensures one { (flat : FlatBody) (a b : Trace) → IsWellMade flat → IsKernelTrace (kernel_of flat) a → IsKernelTrace (kernel_of flat) b
        → restricted (length flat.signals) a ≡ restricted (length flat.signals) b → a ≡ b }
{
    expressions_step();
    equations_step();
}
