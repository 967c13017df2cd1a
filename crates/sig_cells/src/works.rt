//! What instructions come to, and what they leave.

ghost use Rattle.std.specs.Prelude.{◌≡◌, ◌<◌};
ghost use Rattle.sig_cells.specs.Prelude.{true, false, length};
ghost use Rattle.sig_cells.specs.Instructions.{Fails, IsDone, ReadsWithin, answer_of, cells_of};
ghost use Rattle.sig_plan.specs.declared.ended.Cause.{Cause};

use crate::instruction::{Instruction, Work};
use sig_base::{EqId, SigId};
use sig_kernel::Inputs;
use sig_plan::Cause;
use sig_values::{computed_of_one, computed_of_two, next_value};

/// An instruction does not know its equation.
const NO_EQUATION: EqId = EqId(0);

/// Does an instruction of any kind, and tells whether it has a value; nothing changes where it has none.
#[inline(always)]
pub(crate) fn do_one(
    instruction: &Instruction,
    inputs: &Inputs,
    instant: u32,
    cells: &mut [i64],
    stamps: &mut [u32],
    taken: &mut [usize],
) -> bool
    requires reads { ReadsWithin (length taken.old) (length cells.old) instruction.now.work }
    requires cells { instruction.now.target < length cells.old }
    requires stamps { instruction.now.target < length stamps.old }
    ensures done { result ≡ true → IsDone inputs.now instant instruction.now (cells_of cells.old stamps.old taken.old) (cells_of cells.new stamps.new taken.new) }
    ensures fault { result ≡ false → (cause : Cause) × Fails inputs.now instruction.now (cells_of cells.old stamps.old taken.old) cause }
    ensures same { result ≡ false → cells_of cells.new stamps.new taken.new ≡ cells_of cells.old stamps.old taken.old }
{
    let target = instruction.target as usize;
    match instruction.work {
        Work::Next(input) => {
            let Ok(value) = next_value(inputs, SigId(input), taken[input as usize]) else {
                return false;
            };
            cells[target] = value;
            stamps[target] = instant;
            taken[input as usize] += 1;
            true
        }
        work => {
            let Ok(value) = come_to(work, inputs, cells, taken) else {
                return false;
            };
            cells[target] = value;
            stamps[target] = instant;
            true
        }
    }
}

/// What the work of an instruction comes to, or why it comes to nothing.
#[cold]
#[inline(never)]
pub(crate) fn come_to(
    work: Work,
    inputs: &Inputs,
    cells: &[i64],
    taken: &[usize],
) -> Result<i64, Cause>
    requires { ReadsWithin (length taken.now) (length cells.now) work }
    ensures { result ≡ answer_of inputs.now cells.now taken.now work }
{
    match work {
        Work::Next(input) => next_value(inputs, SigId(input), taken[input as usize]),
        Work::Copy(source) => Ok(cells[source as usize]),
        Work::One(function, a) => computed_of_one(NO_EQUATION, function, cells[a as usize]),
        Work::Two(function, a, b) => computed_of_two(
            NO_EQUATION,
            function,
            cells[a as usize],
            cells[b as usize],
        ),
    }
}
