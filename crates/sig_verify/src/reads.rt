//! What operations read and write.

ghost use Rattle.std.specs.Prelude.{◌≡◌, ◌↔◌, ◌≤◌, ◌+◌, ◌*◌, ◌^◌};
ghost use Rattle.sig_verify.specs.Prelude.{Contains, IfErr, IfOk, IsTrue, ImageOpKind, Operand, Reads, Sig, SigId, length};
ghost use Rattle.sig_verify.specs.inner.Asking.{AreOf, IsWrittenWhere, operands_of, target_of};
ghost use Rattle.sig_verify.specs.inner.Diagrams.{IsOf};
ghost use Rattle.sig_verify.specs.inner.Pairs.{IsTired};

use crate::diagrams::Diagrams;
use crate::pairs::Work;
use crate::written::{Written, written_at};
use sig_base::SigId;
use sig_dd::{DdAnswer, Ref};
use sig_file::ImageOpKind;
use sig_kernel::Operand;

/// The signal that an operation writes.
pub(crate) fn target(kind: &ImageOpKind) -> Option<SigId>
    ensures { result ≡ target_of kind.now }
{
    match kind {
        ImageOpKind::Read(x) => Some(*x),
        ImageOpKind::Fun(y, _, _) => Some(*y),
        ImageOpKind::Copy(y, _) => Some(*y),
        ImageOpKind::Const(y, _) => Some(*y),
        ImageOpKind::DelayRead(y, _) => Some(*y),
        ImageOpKind::Store(_, _) => None,
    }
}

/// Whether a signal was written wherever the guard is true.
fn signal_written(
    diagrams: &Diagrams,
    work: &mut Work,
    written: &Written,
    guard: Ref,
    x: SigId,
) -> Result<bool, DdAnswer>
    requires written { AreOf diagrams.now written.now }
    requires guard { IsOf diagrams.now guard }
    ensures value { IfOk result (λ yes. IsTrue yes ↔ IsWrittenWhere diagrams.now.store.nodes written.now guard x) }
    ensures counted { work.new.pairs ≤ work.old.pairs + 2 ^ diagrams.now.conditions }
    ensures refused { IfErr result (IsTired work.old (2 ^ diagrams.now.conditions)) }
{
    diagrams.within(work, guard, written_at(diagrams, written, x))
}

/// Whether an operand is a constant, or a signal that was written wherever the guard is true.
fn operand_written(
    diagrams: &Diagrams,
    work: &mut Work,
    written: &Written,
    guard: Ref,
    operand: Operand,
) -> Result<bool, DdAnswer>
    requires written { AreOf diagrams.now written.now }
    requires guard { IsOf diagrams.now guard }
    ensures value { IfOk result (λ yes. IsTrue yes
        ↔ ((x : SigId) → operand ≡ Sig x → IsWrittenWhere diagrams.now.store.nodes written.now guard x)) }
    ensures counted { work.new.pairs ≤ work.old.pairs + 2 ^ diagrams.now.conditions }
    ensures refused { IfErr result (IsTired work.old (2 ^ diagrams.now.conditions)) }
{
    match operand {
        Operand::Sig(x) => signal_written(diagrams, work, written, guard, x),
        Operand::Const(_) => Ok(true),
    }
}

/// Whether each operand is a constant, or a signal that was written wherever the guard is true.
fn operands_written(
    diagrams: &Diagrams,
    work: &mut Work,
    written: &Written,
    guard: Ref,
    operands: &[Operand],
) -> Result<bool, DdAnswer>
    requires written { AreOf diagrams.now written.now }
    requires guard { IsOf diagrams.now guard }
    ensures value { IfOk result (λ yes. IsTrue yes
        ↔ ((x : SigId) → Contains operands.now (Sig x) → IsWrittenWhere diagrams.now.store.nodes written.now guard x)) }
    ensures counted { work.new.pairs ≤ work.old.pairs + length operands.now * 2 ^ diagrams.now.conditions }
    ensures refused { IfErr result (IsTired work.old (length operands.now * 2 ^ diagrams.now.conditions)) }
{
    for operand in operands {
        if !operand_written(diagrams, work, written, guard, *operand)? {
            return Ok(false);
        }
    }
    Ok(true)
}

/// Whether each signal that an operation reads was written wherever the guard is true.
pub(crate) fn reads_written(
    diagrams: &Diagrams,
    work: &mut Work,
    written: &Written,
    guard: Ref,
    kind: &ImageOpKind,
) -> Result<bool, DdAnswer>
    requires written { AreOf diagrams.now written.now }
    requires guard { IsOf diagrams.now guard }
    ensures value { IfOk result (λ yes. IsTrue yes
        ↔ ((x : SigId) → Reads kind.now x → IsWrittenWhere diagrams.now.store.nodes written.now guard x)) }
    ensures counted { work.new.pairs ≤ work.old.pairs + operands_of kind.now * 2 ^ diagrams.now.conditions }
    ensures refused { IfErr result (IsTired work.old (operands_of kind.now * 2 ^ diagrams.now.conditions)) }
{
    match kind {
        ImageOpKind::Fun(_, _, operands) => {
            operands_written(diagrams, work, written, guard, operands.as_slice())
        }
        ImageOpKind::Copy(_, x) => signal_written(diagrams, work, written, guard, *x),
        ImageOpKind::Store(_, x) => signal_written(diagrams, work, written, guard, *x),
        ImageOpKind::Read(_) => Ok(true),
        ImageOpKind::Const(_, _) => Ok(true),
        ImageOpKind::DelayRead(_, _) => Ok(true),
    }
}
