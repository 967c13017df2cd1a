//! The kernel of a program with paces.

ghost use Rattle.std.specs.Prelude.{◌≡◌, ◌≤◌};
ghost use Rattle.sig_program.specs.Prelude.{true, [], Some, IfErr, IfOk, length, slice_get, NODES, Signal, Kernel, IsOfProgram, IsNameTaken};
ghost use Rattle.sig_program.specs.Acceptance.{AreRefused, HasKernel, HasOwnKernel, taken_line};
ghost use Rattle.sig_program.specs.Programs.{LacksNodes};

use crate::compile::own_kernel;
use crate::taken::Taken;
use sig_base::SigId;
use sig_base::limits::{NODES, PROGRAM_BYTES};
use sig_dd::Store;
use sig_front::{FrontAnswer, kernels_of_texts};
use sig_kernel::Kernel;
use sig_outcome::{Refusal, refused_program};
use sig_pace::{PaceAnswer, pace};
use std::alloc::Global;

/// What pacing makes of the kernel of the program that a text is, over a store of its own.
pub(crate) fn paced<'a>(alloc: Global, bytes: &[u8], own: Kernel) -> Result<Kernel, Refusal<'a>>
    requires short { length bytes.now ≤ PROGRAM_BYTES }
    requires own { HasOwnKernel bytes.now own }
    ensures kernel { IfOk result (HasKernel true bytes.now) }
    ensures refused { IfErr result (IsOfProgram (AreRefused true bytes.now) (LacksNodes true bytes.now)) }
{
    match Store::new(alloc, NODES) {
        Ok(mut store) => paced_over(alloc, bytes, own, &mut store),
        Err(_wanting) => Err(Refusal::OutOfMemory),
    }
}

/// The same over an empty store.
fn paced_over<'a>(
    alloc: Global,
    bytes: &[u8],
    own: Kernel,
    store: &mut Store,
) -> Result<Kernel, Refusal<'a>>
    requires short { length bytes.now ≤ PROGRAM_BYTES }
    requires own { HasOwnKernel bytes.now own }
    requires empty { store.old.nodes ≡ [] }
    requires made_for { store.old.made_for ≡ NODES }
    ensures kernel { IfOk result (HasKernel true bytes.now) }
    ensures refused { IfErr result (IsOfProgram (AreRefused true bytes.now) (LacksNodes true bytes.now)) }
{
    kernels_of_texts();
    match pace(alloc, own, store) {
        Ok(kernel) => Ok(kernel),
        Err(PaceAnswer::NameTaken(x)) => Err(name_taken(alloc, bytes, x)),
        Err(PaceAnswer::TooManySignals(limit)) => {
            Err(refused_program(alloc, &FrontAnswer::TooManySignals(limit)))
        }
        Err(PaceAnswer::Budget(_)) => Err(Refusal::Budget(NODES)),
        Err(PaceAnswer::OutOfMemory) => Err(Refusal::OutOfMemory),
    }
}

/// The refusal of a program whose signal of this number is the least one that has the name of a pace. Pacing
/// has used up the kernel, and the text gives it again.
fn name_taken<'a>(alloc: Global, bytes: &[u8], signal: SigId) -> Refusal<'a>
    requires short { length bytes.now ≤ PROGRAM_BYTES }
    requires taken { (own : Kernel) → HasOwnKernel bytes.now own → IsNameTaken own signal.0 }
    ensures { IsOfProgram (AreRefused true bytes.now) (LacksNodes true bytes.now) result }
{
    match own_kernel(alloc, bytes) {
        Ok(own) => told_taken(alloc, &own, signal),
        Err(refusal) => refusal,
    }
}

/// The refusal by the line that says that the name of a signal of a kernel is taken.
fn told_taken<'a>(alloc: Global, own: &Kernel, signal: SigId) -> Refusal<'a>
    ensures { (named : Signal) → slice_get own.now.signals signal.0 ≡ Some named →
        IsOfProgram (λ line. line ≡ taken_line named) (λ nodes. ⊥) result }
{
    match own.signals.as_slice().get(signal.0 as usize) {
        Some(named) => refused_program(alloc, &Taken { signal: named }),
        None => Refusal::OutOfMemory,
    }
}
