//! The instructions of the steps of an actor.

ghost use Rattle.std.specs.Prelude.{◌≡◌, ◌≤◌, ◌<◌, ◌+◌};
ghost use Rattle.sig_machine.specs.Prelude.{IfOk, Some, length, slice_get, IsValid};
ghost use Rattle.sig_machine.specs.ActorMachines.{AreForSteps, IsForKind};
ghost use Rattle.sig_machine.specs.inner.Sources.{Grows};
ghost use Rattle.sig_machine.specs.Lowerings.{HasShape, IsFor};
ghost use Rattle.sig_cells.specs.Rows.{AreWithin, IsWithin};

use crate::lowering::{target_of, work_of};
use crate::plans::{kernel_of, op_of};
use sig_cells::{Instruction, Work};
use sig_kernel::Kernel;
use sig_plan::{Op, Plan, Step, StepKind};
use std::alloc::{AllocError, Global};

/// What stands at a step that does no operation.
const NOTHING: Instruction = Instruction {
    work: Work::Copy(0),
    target: 0,
};

/// The instructions of some steps, to which the cells of constants are added.
pub(crate) fn instructions_of(
    alloc: Global,
    plan: &Plan,
    steps: &[Step],
    cells: &mut Vec<i64>,
) -> Result<Vec<Instruction>, AllocError>
    requires { length plan.now.kernel.signals + length plan.now.kernel.signals ≤ length cells.old.items }
    ensures grows { IfOk result (λ instructions. Grows cells.old.items cells.new.items) }
    ensures count { IfOk result (λ instructions. length instructions.items ≡ length steps.now) }
    ensures each { IfOk result (λ instructions. AreForSteps plan.now steps.now cells.new.items instructions.items) }
    ensures within { IfOk result (λ instructions. 0 < length cells.old.items → AreWithin plan.now.kernel.inputs (length cells.new.items) instructions.items) }
{
    let mut instructions = Vec::new(alloc);
    for number in 0..steps.len() {
        let step = step_in(steps, number);
        let instruction = instruction_of(plan, step.kind, cells)?;
        instructions.push(instruction)?;
    }
    Ok(instructions)
}

/// The step of a number.
fn step_in(steps: &[Step], number: usize) -> Step
    requires { number < length steps.now }
    ensures { slice_get steps.now number ≡ Some result }
{
    steps[number]
}

/// The instruction of a step of this kind.
fn instruction_of(
    plan: &Plan,
    kind: StepKind,
    cells: &mut Vec<i64>,
) -> Result<Instruction, AllocError>
    requires { length plan.now.kernel.signals + length plan.now.kernel.signals ≤ length cells.old.items }
    ensures grows { IfOk result (λ instruction. Grows cells.old.items cells.new.items) }
    ensures is { IfOk result (λ instruction. IsForKind plan.now kind cells.new.items instruction) }
    ensures within { IfOk result (λ instruction. 0 < length cells.old.items → IsWithin plan.now.kernel.inputs (length cells.new.items) instruction) }
{
    let StepKind::Do(o) = kind else {
        return Ok(NOTHING);
    };
    match op_of(plan, o) {
        Some(op) => instruction_for(kernel_of(plan), op, cells),
        None => Ok(NOTHING),
    }
}

/// The instruction of an operation.
fn instruction_for(
    kernel: &Kernel,
    op: &Op,
    cells: &mut Vec<i64>,
) -> Result<Instruction, AllocError>
    requires valid { IsValid kernel.now }
    requires shape { HasShape kernel.now op.now }
    requires cells { length kernel.now.signals + length kernel.now.signals ≤ length cells.old.items }
    ensures grows { IfOk result (λ instruction. Grows cells.old.items cells.new.items) }
    ensures is { IfOk result (IsFor kernel.now cells.new.items op.now) }
{
    let work = work_of(kernel, op, cells)?;
    let target = target_of(kernel, op);
    Ok(Instruction { work, target })
}
