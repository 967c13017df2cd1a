//! Operations in a row that have one slot.

ghost use Rattle.std.specs.Prelude.{◌≡◌, ◌<◌, ◌^◌};
ghost use Rattle.sig_step.specs.Prelude.{true, IfOk, Some, length, slice_get};
ghost use Rattle.sig_step.specs.States.{AreRows, IsInRow, IsRow};

use sig_plan::{Step, StepKind};
use std::alloc::{AllocError, Global};

/// By step of a code, the step up to which operations of one slot come one after another.
pub(crate) fn rows_of(alloc: Global, steps: &[Step]) -> Result<Vec<u32>, AllocError>
    requires short { length steps.now < 2 ^ 32 }
    ensures count { IfOk result (λ rows. length rows.items ≡ length steps.now) }
    ensures rows { IfOk result (λ rows. AreRows steps.now rows.items) }
{
    let mut rows = Vec::new(alloc);
    for from in 0..steps.len() {
        let to = row_at(steps, rows.as_slice(), from);
        rows.push(to)?;
    }
    Ok(rows)
}

/// The end of the row that begins at a step: that of the row before, where the step is in that.
fn row_at(steps: &[Step], rows: &[u32], from: usize) -> u32
    requires short { length steps.now < 2 ^ 32 }
    requires from { from < length steps.now }
    requires count { length rows.now ≡ from }
    requires rows { AreRows steps.now rows.now }
    ensures { IsRow steps.now from result }
{
    if from > 0 {
        let to = row_in(rows, from - 1);
        if to as usize > from {
            return to;
        }
    }
    row_from(steps, from)
}

/// The end of the row of the step of a number.
fn row_in(rows: &[u32], number: usize) -> u32
    requires { number < length rows.now }
    ensures { slice_get rows.now number ≡ Some result }
{
    rows[number]
}

/// The end of the longest row from a step on that ends before the last step.
fn row_from(steps: &[Step], from: usize) -> u32
    requires short { length steps.now < 2 ^ 32 }
    requires from { from < length steps.now }
    ensures { IsRow steps.now from result }
{
    let slot = steps[from].slot;
    for next in from..steps.len() - 1 {
        if !is_in_row(steps[next], slot) {
            return next as u32;
        }
    }
    (steps.len() - 1) as u32
}

/// Whether a step does an operation of a slot.
fn is_in_row(step: Step, slot: u32) -> bool
    ensures { result ≡ true → IsInRow slot step }
{
    match step.kind {
        StepKind::Do(_) => step.slot == slot,
        _ => false,
    }
}
