//! The next values of inputs.

ghost use Rattle.std.specs.Prelude.{◌≡◌, ◌+◌, ◌<◌, ◌^◌};
ghost use Rattle.sig_values.specs.Prelude.{[], slice_get, slice_index_or, IfOk, next_of};
ghost use Rattle.sig_values.specs.Answers.{answered};

use sig_base::SigId;
use sig_kernel::Inputs;
use sig_plan::Cause;

/// The next value of an input, of which so many were read, or that it has none.
pub fn next_value(inputs: &Inputs, x: SigId, taken: usize) -> Result<i64, Cause>
    ensures value { result ≡ answered (next_of x (slice_get (slice_index_or inputs.now x.0 []) taken)) }
    ensures few { IfOk result (λ v. taken + 1 < 2 ^ 64) }
{
    match inputs.as_slice().get(x.0 as usize) {
        Some(flow) => value_at(flow.as_slice(), x, taken),
        None => Err(Cause::Exhausted(x)),
    }
}

/// The value at a place of a flow.
fn value_at(flow: &[i64], x: SigId, taken: usize) -> Result<i64, Cause>
    ensures value { result ≡ answered (next_of x (slice_get flow.now taken)) }
    ensures few { IfOk result (λ v. taken + 1 < 2 ^ 64) }
{
    match flow.get(taken) {
        Some(value) => Ok(*value),
        None => Err(Cause::Exhausted(x)),
    }
}
