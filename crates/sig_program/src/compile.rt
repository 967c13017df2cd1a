//! From the text of a program to its plan.

ghost use Rattle.std.specs.Prelude.{◌≡◌, ◌≤◌};
ghost use Rattle.sig_program.specs.Prelude.{false, IfErr, IfOk, length, IsOfProgram};
ghost use Rattle.sig_program.specs.Acceptance.{AreRefused, HasKernel, HasOwnKernel, HasSignalNames, IsAcceptedAs, IsRefusedText};
ghost use Rattle.sig_program.specs.Programs.{LacksNodes};

use crate::pacing::paced;
use sig_back::{BackAnswer, back};
use sig_base::limits::PROGRAM_BYTES;
use sig_front::{FrontAnswer, front, kernels_of_texts};
use sig_kernel::Kernel;
use sig_outcome::{Refusal, refused_program};
use sig_plan::Plan;
use std::alloc::Global;

/// The plan of the program that a text is, with paces where they are asked for.
pub fn plan_of<'a>(alloc: Global, bytes: &[u8], pace: bool) -> Result<Plan, Refusal<'a>>
    requires short { length bytes.now ≤ PROGRAM_BYTES }
    ensures plan { IfOk result (λ plan. IsAcceptedAs pace bytes.now plan.kernel) }
    ensures names { pace ≡ false → IfOk result (λ plan. HasSignalNames plan.kernel) }
    ensures refused { IfErr result (IsOfProgram (AreRefused pace bytes.now) (LacksNodes pace bytes.now)) }
{
    kernels_of_texts();
    let kernel = kernel_of(alloc, bytes, pace)?;
    match back(alloc, kernel) {
        Ok(plan) => Ok(plan),
        Err(BackAnswer::Refused(fault)) => Err(refused_program(alloc, &fault)),
        Err(BackAnswer::Budget(nodes)) => Err(Refusal::Budget(nodes)),
        Err(BackAnswer::OutOfMemory) => Err(Refusal::OutOfMemory),
    }
}

/// The kernel of the program that a text is, with paces where they are asked for.
fn kernel_of<'a>(alloc: Global, bytes: &[u8], pace: bool) -> Result<Kernel, Refusal<'a>>
    requires short { length bytes.now ≤ PROGRAM_BYTES }
    ensures kernel { IfOk result (HasKernel pace bytes.now) }
    ensures refused { IfErr result (IsOfProgram (AreRefused pace bytes.now) (LacksNodes pace bytes.now)) }
{
    let own = own_kernel(alloc, bytes)?;
    if pace {
        paced(alloc, bytes, own)
    } else {
        Ok(own)
    }
}

/// The kernel of the program that a text is, before it gets paces.
pub(crate) fn own_kernel<'a>(alloc: Global, bytes: &[u8]) -> Result<Kernel, Refusal<'a>>
    requires short { length bytes.now ≤ PROGRAM_BYTES }
    ensures own { IfOk result (HasOwnKernel bytes.now) }
    ensures refused { IfErr result (IsOfProgram (IsRefusedText bytes.now) (λ nodes. ⊥)) }
{
    match front(alloc, bytes) {
        Ok(kernel) => Ok(kernel),
        Err(FrontAnswer::OutOfMemory) => Err(Refusal::OutOfMemory),
        Err(answer) => Err(refused_program(alloc, &answer)),
    }
}
