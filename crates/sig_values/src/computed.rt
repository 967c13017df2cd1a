//! What a function gives of the values of its operands.

ghost use Rattle.std.specs.Prelude.{◌≡◌, ◌∷◌, ◌||◌, if◌then◌else◌};
ghost use Rattle.sig_values.specs.Prelude.{List, [], pos, ℤ, function_of, bounded, computed, truth_value};
ghost use Rattle.sig_values.specs.Answers.{IsWithin, answered};

use sig_base::EqId;
use sig_kernel::FunOp;
use sig_plan::Cause;

/// What a function gives of one value, or why it gives none; `e` is its equation.
pub fn computed_of_one(e: EqId, function: FunOp, a: i64) -> Result<i64, Cause>
    ensures { result ≡ answered (computed e (function_of function) (a ∷ [])) }
{
    match function {
        FunOp::Id => Ok(a),
        FunOp::Neg => within(e, a.checked_neg()),
        FunOp::Not => Ok(truth(a != 1)),
        _ => Ok(0),
    }
}

/// What a function gives of two values, or why it gives none; `e` is its equation.
pub fn computed_of_two(e: EqId, function: FunOp, a: i64, b: i64) -> Result<i64, Cause>
    ensures { result ≡ answered (computed e (function_of function) (a ∷ b ∷ [])) }
{
    match function {
        FunOp::Add => within(e, a.checked_add(b)),
        FunOp::Sub => within(e, a.checked_sub(b)),
        FunOp::Mul => within(e, a.checked_mul(b)),
        FunOp::Div => divided(e, a, b),
        FunOp::Mod => remaining(e, a, b),
        FunOp::And => Ok(truth(a == 1 && b == 1)),
        FunOp::Or => Ok(truth(a == 1 || b == 1)),
        FunOp::Xor | FunOp::Ne => Ok(truth(a != b)),
        FunOp::Eq => Ok(truth(a == b)),
        FunOp::Lt => Ok(truth(a < b)),
        FunOp::Le => Ok(truth(a <= b)),
        FunOp::Gt => Ok(truth(a > b)),
        FunOp::Ge => Ok(truth(a >= b)),
        FunOp::Id | FunOp::Neg | FunOp::Not => Ok(0),
    }
}

/// A result that has 64 bits.
fn within(e: EqId, value: Option<i64>) -> Result<i64, Cause>
    ensures { IsWithin e value result }
{
    match value {
        Some(value) => Ok(value),
        None => Err(Cause::Overflow(e)),
    }
}

/// The quotient, truncated toward zero.
fn divided(e: EqId, a: i64, b: i64) -> Result<i64, Cause>
    ensures { result ≡ answered (computed e (function_of FunOp.Div) (a ∷ b ∷ [])) }
{
    if b == 0 {
        return Err(Cause::ZeroDivisor(e));
    }
    within(e, a.checked_div(b))
}

/// What the quotient leaves. A division by -1 leaves nothing, also where its quotient is outside 64 bits.
fn remaining(e: EqId, a: i64, b: i64) -> Result<i64, Cause>
    ensures { result ≡ answered (computed e (function_of FunOp.Mod) (a ∷ b ∷ [])) }
{
    if b == 0 {
        return Err(Cause::ZeroDivisor(e));
    }
    Ok(a.wrapping_rem(b))
}

/// A truth as a value.
fn truth(holds: bool) -> i64
    ensures { result ≡ truth_value holds }
{
    if holds { 1 } else { 0 }
}
