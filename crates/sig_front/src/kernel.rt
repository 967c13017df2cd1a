//! From a text to its kernel.

ghost use Rattle.std.specs.Prelude.{◌≡◌, ◌<◌, ◌≤◌, ◌^◌, ◌⊎◌};
ghost use Rattle.sig_front.specs.Prelude.{List, IfOk, IfErr, IsErrAnd, MatchResult, length, AllByRecursion, IsSignalName, IsValid, Kernel};
ghost use Rattle.sig_front.specs.Kernels.{HasTracesOf, IsKernelText, IsNoKernelText};
ghost use Rattle.sig_front.specs.declared.answer.FrontAnswer.{FrontAnswer};

use crate::answer::FrontAnswer;
use crate::body::flat;
use crate::laws::kernels_of_texts;
use sig_base::limits::PROGRAM_BYTES;
use sig_flat::to_kernel;
use sig_kernel::Kernel;
use std::alloc::Global;

/// The kernel of the program that a text is, or the first refusal by the lexer, the parser, the check,
/// the expansion of calls and the limit of 512 signals. Only memory can be wanting besides. The
/// kernel is valid, its signals have names of 1 to 1,048,576 bytes of printable ASCII without blanks, and its
/// traces, restricted to the declared and copied signals, are exactly those of
/// the program, each from one trace of the kernel.
pub fn front(alloc: Global, bytes: &[u8]) -> Result<Kernel, FrontAnswer>
    requires short { length bytes.now ≤ PROGRAM_BYTES }
    ensures kernel { IfOk result (IsKernelText bytes.now) }
    ensures valid { IfOk result IsValid }
    ensures traces { IfOk result (HasTracesOf bytes.now) }
    ensures names { IfOk result (λ kernel. AllByRecursion (λ signal. IsSignalName signal.name) kernel.signals) }
    ensures small { IfOk result (λ kernel. length kernel.equations < 2 ^ 30) }
    ensures fault { IfErr result (λ answer. (answer ≡ FrontAnswer.OutOfMemory) ⊎ IsNoKernelText bytes.now answer) }

    // Where the text has a kernel that is kept, it is given, and where it is refused, the refusal is this
    // one, unless memory runs out.
    ensures given { (kernel : Kernel) → IsKernelText bytes.now kernel →
        MatchResult result (λ given. given ≡ kernel) (λ answer. answer ≡ FrontAnswer.OutOfMemory) }
    ensures refused { (fault : FrontAnswer) → IsNoKernelText bytes.now fault →
        IsErrAnd result (λ answer. (answer ≡ FrontAnswer.OutOfMemory) ⊎ (answer ≡ fault)) }
{
    kernels_of_texts();
    kernel_of(alloc, bytes)
}

/// The kernel or the first refusal.
fn kernel_of(alloc: Global, bytes: &[u8]) -> Result<Kernel, FrontAnswer>
    requires short { length bytes.now ≤ PROGRAM_BYTES }
    ensures kernel { IfOk result (IsKernelText bytes.now) }
    ensures fault { IfErr result (λ answer. (answer ≡ FrontAnswer.OutOfMemory) ⊎ IsNoKernelText bytes.now answer) }
{
    let flat = flat(alloc, bytes)?;
    match to_kernel(alloc, &flat) {
        Ok(kernel) => Ok(kernel),
        Err(answer) => Err(FrontAnswer::from(answer)),
    }
}
