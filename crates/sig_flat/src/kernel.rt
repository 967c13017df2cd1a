//! The kernel of a flat body.

ghost use Rattle.std.specs.Prelude.{◌≡◌, ◌<◌, ◌≤◌};
ghost use Rattle.sig_flat.specs.Prelude.{length, IfOk, flat_body_of};
ghost use Rattle.sig_flat.specs.Answers.{IsRefused};
ghost use Rattle.sig_flat.specs.KernelOf.{kernel_of};

use crate::answer::FlatAnswer;
use crate::draft::Draft;
use crate::flat_equation::add_equations;
use sig_kernel::Kernel;
use sig_tree::Flat;
use std::alloc::Global;

/// The kernel of a flat body: its signals and then the intermediates, with the equations of all
/// operators. `TooManySignals` is answered where these are more than 512 signals, and then no more of
/// them are made. Only memory can be wanting besides.
#[tactic(auto, using(crate::proofs::Sizes::equations_no_less))]
pub fn to_kernel(alloc: Global, flat: &Flat) -> Result<Kernel, FlatAnswer>
    ensures kernel { IfOk result (λ kernel. kernel ≡ kernel_of (flat_body_of flat.now)) }
    ensures few { IfOk result (λ kernel. length kernel.signals ≤ 512) }
    ensures refused { IsRefused result (512 < length (kernel_of (flat_body_of flat.now)).signals) }
{
    let mut draft = Draft::new(alloc, &flat.signals)?;
    let declared = draft.len();
    add_equations(&mut draft, alloc, &flat.body)?;
    Ok(draft.finish(flat.inputs, flat.outputs, declared))
}
