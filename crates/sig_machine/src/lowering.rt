//! From a plan to instructions.

ghost use Rattle.std.specs.Prelude.{◌≡◌, ◌≤◌, ◌<◌, ◌+◌};
ghost use Rattle.sig_machine.specs.Prelude.{ℕ, IfOk, length, IsValid, initial_in, Compute};
ghost use Rattle.sig_machine.specs.Lowerings.{AreFor, AreGuardsOf, HasShape, IsTarget, IsWorkOf, Lowers};
ghost use Rattle.sig_machine.specs.Machines.{memories_at};
ghost use Rattle.sig_machine.specs.inner.OnCells.{AreZero};
ghost use Rattle.sig_machine.specs.inner.Sources.{Grows};

use crate::lowered::Lowered;
use crate::plans::{conditions_of, kernel_of, op_at, order_of, store_of};
use crate::sources::{constant, work_of_form};
use sig_base::SigId;
use sig_cells::{GuardedCode, Instruction, Work};
use sig_dd::Ref;
use sig_kernel::Kernel;
use sig_plan::{Op, OpKind, Plan};
use sig_values::{defined_by, initial_values};
use std::alloc::{AllocError, Global};

/// The instructions of a plan.
pub fn lower(alloc: Global, plan: &Plan) -> Result<Lowered, AllocError>
    ensures { IfOk result (Lowers plan.now) }
{
    let kernel = kernel_of(plan);
    let signals = signal_count(kernel);
    let mut cells = opening_cells(alloc, kernel)?;
    let guards = guards_of(alloc, plan)?;
    let instructions = instructions_of(alloc, plan, &mut cells)?;
    let code = GuardedCode::new(
        alloc,
        store_of(plan),
        conditions_of(plan),
        signals,
        guards.as_slice(),
        instructions,
    )?;
    Ok(Lowered {
        signals,
        code,
        cells,
    })
}

/// The guards of the operations of a plan, in its order.
fn guards_of(alloc: Global, plan: &Plan) -> Result<Vec<Ref>, AllocError>
    ensures { IfOk result (λ guards. AreGuardsOf plan.now guards.items) }
{
    let mut guards = Vec::new(alloc);
    for place in 0..order_of(plan).len() {
        guards.push(op_at(plan, place).guard)?;
    }
    Ok(guards)
}

/// The instructions of the operations of a plan, in its order, to which the cells of constants are added.
fn instructions_of(
    alloc: Global,
    plan: &Plan,
    cells: &mut Vec<i64>,
) -> Result<Vec<Instruction>, AllocError>
    requires { length plan.now.kernel.signals + length plan.now.kernel.signals ≤ length cells.old.items }
    ensures grows { IfOk result (λ instructions. Grows cells.old.items cells.new.items) }
    ensures each { IfOk result (λ instructions. AreFor plan.now cells.new.items instructions.items) }
{
    let kernel = kernel_of(plan);
    let mut instructions = Vec::new(alloc);
    for place in 0..order_of(plan).len() {
        let op = op_at(plan, place);
        let work = work_of(kernel, op, cells)?;
        let target = target_of(kernel, op);
        instructions.push(Instruction { work, target })?;
    }
    Ok(instructions)
}

/// The cells of the signals, and those of the delays with their initial values.
pub(crate) fn opening_cells(alloc: Global, kernel: &Kernel) -> Result<Vec<i64>, AllocError>
    requires { IsValid kernel.now }
    ensures count { IfOk result (λ cells. length cells.items ≡ length kernel.now.signals + length kernel.now.signals) }
    ensures opening { IfOk result (λ cells. memories_at (length kernel.now.signals) cells.items ≡ initial_in kernel.now.equations) }
    ensures zero { IfOk result (λ cells. AreZero (length kernel.now.signals) cells.items) }
{
    let signals = kernel.signals.as_slice().len();
    let mut cells = zeros(alloc, signals)?;
    let memories = initial_values(alloc, kernel.equations.as_slice(), signals)?;
    cells.extend_from_slice(memories.as_slice())?;
    Ok(cells)
}

/// How many signals a kernel has.
fn signal_count(kernel: &Kernel) -> usize
    ensures { result ≡ length kernel.now.signals }
{
    kernel.signals.as_slice().len()
}

/// So many zeros.
pub(crate) fn zeros(alloc: Global, count: usize) -> Result<Vec<i64>, AllocError>
    ensures count { IfOk result (λ cells. length cells.items ≡ count) }
    ensures zero { IfOk result (λ cells. AreZero count cells.items) }
{
    vec![in alloc; 0; count]
}

/// The cell that an operation writes.
pub(crate) fn target_of(kernel: &Kernel, op: &Op) -> u32
    requires valid { IsValid kernel.now }
    requires shape { HasShape kernel.now op.now }
    ensures { IsTarget kernel.now op.now result }
{
    match (op.writes, op.kind) {
        (Some(x), _) => x.0,
        (None, OpKind::Store(e)) => match defined_by(kernel, e) {
            Some(y) => memory_cell(kernel, y),
            None => 0,
        },
        _ => 0,
    }
}

/// The cell of the delay that defines a signal.
fn memory_cell(kernel: &Kernel, y: SigId) -> u32
    requires valid { IsValid kernel.now }
    requires within { y.0 < length kernel.now.signals }
    ensures { result ≡ length kernel.now.signals + y.0 }
{
    kernel.signals.as_slice().len() as u32 + y.0
}

/// What gives the value of an operation.
pub(crate) fn work_of(kernel: &Kernel, op: &Op, cells: &mut Vec<i64>) -> Result<Work, AllocError>
    requires valid { IsValid kernel.now }
    requires shape { HasShape kernel.now op.now }
    requires cells { length kernel.now.signals + length kernel.now.signals ≤ length cells.old.items }
    ensures grows { IfOk result (λ work. Grows cells.old.items cells.new.items) }
    ensures work { IfOk result (IsWorkOf kernel.now cells.new.items op.now) }
{
    match op.kind {
        OpKind::Read(x) => Ok(Work::Next(x.0)),
        OpKind::Left | OpKind::Right | OpKind::Store(_) => match op.reads.as_slice() {
            [x, ..] => Ok(Work::Copy(x.0)),
            [] => constant(0, cells),
        },
        OpKind::DelayRead => match op.writes {
            Some(y) => Ok(Work::Copy(memory_cell(kernel, y))),
            None => constant(0, cells),
        },
        OpKind::Compute => work_of_equation(kernel, op, cells),
    }
}

/// What gives the value of an operation that computes its equation.
fn work_of_equation(kernel: &Kernel, op: &Op, cells: &mut Vec<i64>) -> Result<Work, AllocError>
    requires computes { op.now.kind ≡ Compute }
    requires shape { HasShape kernel.now op.now }
    requires cells { length kernel.now.signals + length kernel.now.signals ≤ length cells.old.items }
    ensures grows { IfOk result (λ work. Grows cells.old.items cells.new.items) }
    ensures work { IfOk result (IsWorkOf kernel.now cells.new.items op.now) }
{
    let Some(e) = op.eq else {
        return constant(0, cells);
    };
    match kernel.equations.as_slice().get(e.0 as usize) {
        Some(equation) => work_of_form(&equation.form, cells),
        None => constant(0, cells),
    }
}
