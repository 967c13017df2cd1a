//! What gives the values of forms.

ghost use Rattle.std.specs.Prelude.{◌≡◌, ◌≤◌, ◌<◌, ◌+◌, ◌++◌, ◌∷◌};
ghost use Rattle.sig_machine.specs.Prelude.{[], ℕ, IfOk, length, map, function_of, signals_of, computed, computed_by, operand_in};
ghost use Rattle.sig_machine.specs.Lowerings.{taken_by_form};
ghost use Rattle.sig_machine.specs.inner.Sources.{AreBelow, Grows, IsCellOf, IsConstant, IsSource};

use sig_cells::Work;
use sig_kernel::{Form, FunOp, Operand};
use std::alloc::AllocError;

/// What gives the value of an equation of this form.
pub(crate) fn work_of_form(form: &Form, cells: &mut Vec<i64>) -> Result<Work, AllocError>
    ensures grows { IfOk result (λ work. Grows cells.old.items cells.new.items) }
    ensures work { IfOk result (λ work. (signals : ℕ) → signals + signals ≤ length cells.old.items → AreBelow signals (taken_by_form form.now)
        → IsSource signals cells.new.items (taken_by_form form.now) (λ registers e. computed_by registers e form.now) work) }
{
    match form {
        Form::Fun(_, function, operands) => work_of_function(*function, operands.as_slice(), cells),
        Form::When(_, x, _) => Ok(Work::Copy(x.0)),
        Form::WhenConst(_, value, _) => constant(*value, cells),
        Form::Event(_, _) => constant(1, cells),
        Form::Delay(_, _, _) | Form::Default(_, _, _) | Form::Sync(_, _) => constant(0, cells),
    }
}

/// What gives the value of a function.
fn work_of_function(
    function: FunOp,
    operands: &[Operand],
    cells: &mut Vec<i64>,
) -> Result<Work, AllocError>
    ensures grows { IfOk result (λ work. Grows cells.old.items cells.new.items) }
    ensures work { IfOk result (λ work. (signals : ℕ) → signals + signals ≤ length cells.old.items → AreBelow signals (signals_of operands.now)
        → IsSource signals cells.new.items (signals_of operands.now)
        (λ registers e. computed e (function_of function) (map (operand_in registers) operands.now)) work) }
{
    match operands {
        [] => constant(0, cells),
        [a] => Ok(Work::One(function, cell_of(*a, cells)?)),
        [a, b] => {
            let left = cell_of(*a, cells)?;
            Ok(Work::Two(function, left, cell_of(*b, cells)?))
        }
        _ => constant(0, cells),
    }
}

/// The cell of an operand.
fn cell_of(operand: Operand, cells: &mut Vec<i64>) -> Result<u32, AllocError>
    ensures grows { IfOk result (λ number. Grows cells.old.items cells.new.items) }
    ensures cell { IfOk result (λ number. (signals : ℕ) → signals + signals ≤ length cells.old.items
        → IsCellOf signals cells.new.items operand number) }
{
    match operand {
        Operand::Sig(x) => Ok(x.0),
        Operand::Const(value) => new_cell(value, cells),
    }
}

/// A copy of a constant.
pub(crate) fn constant(value: i64, cells: &mut Vec<i64>) -> Result<Work, AllocError>
    ensures { IfOk result (IsConstant value cells.old.items cells.new.items) }
{
    Ok(Work::Copy(new_cell(value, cells)?))
}

/// A new cell with a constant.
fn new_cell(value: i64, cells: &mut Vec<i64>) -> Result<u32, AllocError>
    ensures number { IfOk result (λ number. number ≡ length cells.old.items) }
    ensures cell { IfOk result (λ number. cells.new.items ≡ cells.old.items ++ value ∷ []) }
{
    // No number is left for a cell past these.
    let Ok(number) = u32::try_from(cells.len()) else {
        return Err(AllocError);
    };
    cells.push(value)?;
    Ok(number)
}
