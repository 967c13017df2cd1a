//! What is left of the traces of a kernel where its intermediates are left out.

ghost use Rattle.std.specs.Prelude.{◌≡◌, ◌≤◌, ◌<◌, ◌+◌, ◌↔◌};
ghost use Rattle.sig_flat.specs.Prelude.{ℕ, ℤ, List, length, Fits, IsLongest, Trace, flow_of, reduce, IsWellMade, IsKernelTrace, output_text, Kernel, FlatBody, IsProcessTrace};
ghost use Rattle.sig_flat.specs.KernelOf.{kernel_of};
ghost use Rattle.sig_flat.specs.Restricted.{restricted};

use crate::laws::kernels_keep_signals;
use crate::traces::kernel_traces_are_process_traces;
use sig_kernel::{beginnings_are_traces, silent_instants_make_no_difference};

/// A law: a trace has the flows of the signals that it is restricted to, and where the outputs are
/// among these, its text.
pub fn restricted_traces_keep_flows()
    ensures flow { (count signal : ℕ) (trace : Trace) → signal < count → flow_of signal (restricted count trace) ≡ flow_of signal trace }
    ensures fits { (count : ℕ) (flows : List (List ℤ)) (trace : Trace) → length flows ≤ count → Fits flows (restricted count trace) ↔ Fits flows trace }
    ensures text { (kernel : Kernel) (count : ℕ) (trace : Trace) → kernel.inputs + kernel.outputs ≤ count
        → output_text kernel (restricted count trace) ≡ output_text kernel trace }
{}

/// A law: no intermediate of a kernel is present where all other signals are absent, so silent
/// instants may be taken out of its traces before or after the intermediates are left out.
pub fn restricted_traces_keep_silence()
    ensures { (flat : FlatBody) (trace : Trace) → IsWellMade flat → IsKernelTrace (kernel_of flat) trace
        → reduce (restricted (length flat.signals) trace) ≡ restricted (length flat.signals) (reduce trace) }
{
    beginnings_are_traces();
    silent_instants_make_no_difference();
    kernels_keep_signals();
    kernel_traces_are_process_traces();
}

/// A law: the longest trace of a kernel is, without the intermediates, the longest trace of the
/// process, and no other trace of the kernel is.
pub fn longest_traces_are_longest_process_traces()
    ensures restricted { (flat : FlatBody) (flows : List (List ℤ)) (limit : ℕ) (trace : Trace) → IsWellMade flat
        → length flows ≤ length flat.signals → IsLongest (IsKernelTrace (kernel_of flat)) flows limit trace
        → IsLongest (IsProcessTrace flat) flows limit (restricted (length flat.signals) trace) }
    ensures extended { (flat : FlatBody) (flows : List (List ℤ)) (limit : ℕ) (trace : Trace) → IsWellMade flat
        → length flows ≤ length flat.signals → IsKernelTrace (kernel_of flat) trace
        → IsLongest (IsProcessTrace flat) flows limit (restricted (length flat.signals) trace)
        → IsLongest (IsKernelTrace (kernel_of flat)) flows limit trace }
{
    beginnings_are_traces();
    silent_instants_make_no_difference();
    kernels_keep_signals();
    kernel_traces_are_process_traces();
}
