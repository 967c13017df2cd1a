//! Whether threads pay for a run whose words do not ask for any.

use sig_base::OpId;
use sig_base::limits::{CAPACITY_DEFAULT, WORKERS_DEFAULT};
use sig_kernel::{Form, FunOp};
use sig_plan::{Code, Plan, StepKind};
use sig_words::Settings;

/// How many sums in an instant one of two threads must take off the other for each item that goes over a link there.
const SUMS_AN_ITEM: u64 = 80;

/// How many sums take as long as one division.
const SUMS_A_DIVISION: u64 = 6;

/// Whether threads are to be started for a run of a plan: where the settings are not those of words that ask for
/// none, or where both threads have enough to do.
pub(crate) fn are_wanted(plan: &Plan, settings: Settings) -> bool {
    settings.workers != WORKERS_DEFAULT
        || settings.capacity != CAPACITY_DEFAULT
        || taken_off(plan) >= SUMS_AN_ITEM.saturating_mul(plan.links.len() as u64)
}

/// How much is done in an instant by that one of two workers which does less.
fn taken_off(plan: &Plan) -> u64 {
    let mut even: u64 = 0;
    let mut odd: u64 = 0;
    for (number, code) in plan.codes.iter().enumerate() {
        if number % 2 == 0 {
            even = even.saturating_add(sums_of(plan, code));
        } else {
            odd = odd.saturating_add(sums_of(plan, code));
        }
    }
    even.min(odd)
}

/// How many sums take as long as all operations of a code.
fn sums_of(plan: &Plan, code: &Code) -> u64 {
    let mut sums: u64 = 0;
    for step in code.steps() {
        if let StepKind::Do(o) = step.kind {
            sums = sums.saturating_add(sums_of_op(plan, o));
        }
    }
    sums
}

fn sums_of_op(plan: &Plan, o: OpId) -> u64 {
    match form_of(plan, o) {
        Some(Form::Fun(_, FunOp::Div | FunOp::Mod, _)) => SUMS_A_DIVISION,
        _ => 1,
    }
}

/// The form of the equation of an operation.
fn form_of(plan: &Plan, o: OpId) -> Option<&Form> {
    let equation = plan.ops.get(o.0 as usize)?.eq?;
    let equations = plan.kernel.equations.as_slice();
    Some(&equations.get(equation.0 as usize)?.form)
}
