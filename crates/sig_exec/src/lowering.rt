//! From an image to instructions.

ghost use Rattle.std.specs.Prelude.{◌≡◌, ◌≤◌, ◌<◌, ◌+◌, ◌++◌, ◌∷◌};
ghost use Rattle.sig_exec.specs.Prelude.{ℕ, IfOk, [], length, pos, replicate, IsOperation, scope_of};
ghost use Rattle.sig_exec.specs.inner.Functions.{AreFunctions};
ghost use Rattle.sig_exec.specs.inner.Lowerings.{AreFor, AreGuardsOf, Grows, IsCellOf, IsFor, IsFunctionWork, IsWorkOf, Lowers, bound_of, inits_of, target_of};

use crate::functions::Functions;
use crate::images::{conditions_of, images_are_right, op_at, signal_count};
use crate::lowered::ImageInstructions;
use sig_cells::{GuardedCode, Instruction, Work};
use sig_dd::Ref;
use sig_file::{Image, ImageOp, ImageOpKind};
use sig_kernel::{FunOp, Operand};
use std::alloc::{AllocError, Global};

/// The instructions of an image.
pub(crate) fn lower(alloc: Global, image: &Image) -> Result<ImageInstructions, AllocError>
    ensures { IfOk result (Lowers image.now) }
{
    images_are_right(image);
    let functions = Functions::new(alloc, image)?;
    let mut cells = opening_cells(alloc, image)?;
    let guards = guards_of(alloc, image, &functions)?;
    let instructions = instructions_of(alloc, image, &mut cells)?;
    let code = GuardedCode::new(
        alloc,
        &functions.store,
        conditions_of(image),
        signal_count(image),
        guards.as_slice(),
        instructions,
    )?;
    Ok(ImageInstructions {
        functions,
        code,
        cells,
    })
}

/// The functions of the guards of the operations.
fn guards_of(alloc: Global, image: &Image, functions: &Functions) -> Result<Vec<Ref>, AllocError>
    requires { AreFunctions image.now functions.now }
    ensures { IfOk result (λ guards. AreGuardsOf image.now functions.now guards.items) }
{
    images_are_right(image);
    let mut guards = Vec::new(alloc);
    for place in 0..image.ops.len() {
        guards.push(functions.refs[op_at(image, place).guard as usize])?;
    }
    Ok(guards)
}

/// The instructions of the operations, to which the cells of constants are added.
fn instructions_of(
    alloc: Global,
    image: &Image,
    cells: &mut Vec<i64>,
) -> Result<Vec<Instruction>, AllocError>
    requires { bound_of image.now ≤ length cells.old.items }
    ensures grows { IfOk result (λ instructions. Grows cells.old.items cells.new.items) }
    ensures each { IfOk result (λ instructions. AreFor image.now cells.new.items instructions.items) }
{
    images_are_right(image);
    let mut instructions = Vec::new(alloc);
    for place in 0..image.ops.len() {
        instructions.push(instruction_of(image, op_at(image, place), cells)?)?;
    }
    Ok(instructions)
}

/// The cells of the signals, and those of the memories with what they have at first.
fn opening_cells(alloc: Global, image: &Image) -> Result<Vec<i64>, AllocError>
    ensures { IfOk result (λ cells. cells.items ≡ replicate (length image.now.signals) (pos 0) ++ inits_of image.now) }
{
    let mut cells = zeros(alloc, image.signals.len())?;
    let inits = inits_of(alloc, image)?;
    cells.extend_from_slice(inits.as_slice())?;
    Ok(cells)
}

/// So many zeros.
fn zeros(alloc: Global, count: usize) -> Result<Vec<i64>, AllocError>
    ensures { IfOk result (λ cells. cells.items ≡ replicate count (pos 0)) }
{
    vec![in alloc; 0; count]
}

/// What each memory has at first.
fn inits_of(alloc: Global, image: &Image) -> Result<Vec<i64>, AllocError>
    ensures { IfOk result (λ inits. inits.items ≡ inits_of image.now) }
{
    image
        .memories
        .iter()
        .map(|memory| memory.init)
        .collect(alloc)
}

/// The instruction of an operation.
fn instruction_of(
    image: &Image,
    op: &ImageOp,
    cells: &mut Vec<i64>,
) -> Result<Instruction, AllocError>
    requires right { IsOperation (scope_of image.now) op.now }
    requires room { bound_of image.now ≤ length cells.old.items }
    ensures grows { IfOk result (λ instruction. Grows cells.old.items cells.new.items) }
    ensures is { IfOk result (IsFor image.now cells.new.items op.now) }
{
    let work = work_of(image, op, cells)?;
    let target = target_of(image, op);
    Ok(Instruction { work, target })
}

/// The cell that an operation writes.
fn target_of(image: &Image, op: &ImageOp) -> u32
    requires { IsOperation (scope_of image.now) op.now }
    ensures { result ≡ target_of image.now op.now.kind }
{
    match &op.kind {
        ImageOpKind::Read(y)
        | ImageOpKind::Fun(y, _, _)
        | ImageOpKind::Copy(y, _)
        | ImageOpKind::Const(y, _)
        | ImageOpKind::DelayRead(y, _) => y.0,
        ImageOpKind::Store(memory, _) => memory_cell(image, *memory),
    }
}

/// The cell of a memory.
fn memory_cell(image: &Image, memory: u32) -> u32
    requires { memory < length image.now.memories }
    ensures { result ≡ length image.now.signals + memory }
{
    images_are_right(image);
    image.signals.len() as u32 + memory
}

/// What gives the value of an operation.
fn work_of(image: &Image, op: &ImageOp, cells: &mut Vec<i64>) -> Result<Work, AllocError>
    requires right { IsOperation (scope_of image.now) op.now }
    requires room { bound_of image.now ≤ length cells.old.items }
    ensures grows { IfOk result (λ work. Grows cells.old.items cells.new.items) }
    ensures work { IfOk result (IsWorkOf image.now cells.new.items op.now.kind) }
{
    match &op.kind {
        ImageOpKind::Read(x) => Ok(Work::Next(x.0)),
        ImageOpKind::Fun(_, function, operands) => work_of_function(
            *function,
            operands.as_slice(),
            cells,
        ),
        ImageOpKind::Copy(_, x) | ImageOpKind::Store(_, x) => Ok(Work::Copy(x.0)),
        ImageOpKind::Const(_, value) => Ok(Work::Copy(new_cell(*value, cells)?)),
        ImageOpKind::DelayRead(_, memory) => Ok(Work::Copy(memory_cell(image, *memory))),
    }
}

/// What gives the value of a function.
fn work_of_function(
    function: FunOp,
    operands: &[Operand],
    cells: &mut Vec<i64>,
) -> Result<Work, AllocError>
    ensures grows { IfOk result (λ work. Grows cells.old.items cells.new.items) }
    ensures work { IfOk result (λ work. (bound : ℕ) → bound ≤ length cells.old.items
        → IsFunctionWork bound cells.new.items function operands.now work) }
{
    match operands {
        [a] => Ok(Work::One(function, cell_of(*a, cells)?)),
        [a, b] => {
            let left = cell_of(*a, cells)?;
            Ok(Work::Two(function, left, cell_of(*b, cells)?))
        }
        // No function has another count of operands.
        _ => Err(AllocError),
    }
}

/// The cell of an operand.
fn cell_of(operand: Operand, cells: &mut Vec<i64>) -> Result<u32, AllocError>
    ensures grows { IfOk result (λ number. Grows cells.old.items cells.new.items) }
    ensures cell { IfOk result (λ number. (bound : ℕ) → bound ≤ length cells.old.items → IsCellOf bound cells.new.items operand number) }
{
    match operand {
        Operand::Sig(x) => Ok(x.0),
        Operand::Const(value) => new_cell(value, cells),
    }
}

/// A new cell with a constant.
fn new_cell(value: i64, cells: &mut Vec<i64>) -> Result<u32, AllocError>
    ensures number { IfOk result (λ number. number ≡ length cells.old.items) }
    ensures cell { IfOk result (λ number. cells.new.items ≡ cells.old.items ++ value ∷ []) }
{
    // No number is left for a cell past these.
    let Ok(number) = u32::try_from(cells.len()) else {
        return Err(AllocError);
    };
    cells.push(value)?;
    Ok(number)
}
