//! Functions of values.

ghost use Rattle.std.specs.Prelude.{◌≡◌, ◌↔◌, if◌then◌else◌};
ghost use Rattle.sig_judge.specs.Prelude.{pos, None, Some, true, IsTrue, is_function, Combines, Signal};
ghost use Rattle.sig_judge.specs.inner.Decides.{DecidesValue};

use sig_tree::BinOp;

/// The value of a function of two operands that are present, if there is one.
pub fn function_of_two(op: BinOp, x: i64, y: i64) -> Option<i64>
    requires { is_function op ≡ true }
    ensures { DecidesValue (Combines op (Signal (Some x)) (Signal (Some y))) result }
{
    match op {
        BinOp::Or => Some(truth(x == 1 || y == 1)),
        BinOp::Xor | BinOp::Ne => Some(truth(x != y)),
        BinOp::And => Some(truth(x == 1 && y == 1)),
        BinOp::Eq => Some(truth(x == y)),
        BinOp::Lt => Some(truth(x < y)),
        BinOp::Le => Some(truth(x <= y)),
        BinOp::Gt => Some(truth(x > y)),
        BinOp::Ge => Some(truth(x >= y)),
        BinOp::Add => x.checked_add(y),
        BinOp::Sub => x.checked_sub(y),
        BinOp::Mul => x.checked_mul(y),
        BinOp::Div => x.checked_div(y),
        BinOp::Mod => remainder(x, y),
        BinOp::Default | BinOp::When | BinOp::Plus | BinOp::Meet | BinOp::Less => None,
    }
}

/// What a division leaves, where there is a divisor.
fn remainder(x: i64, divisor: i64) -> Option<i64>
    ensures { DecidesValue (Combines BinOp.Mod (Signal (Some x)) (Signal (Some divisor))) result }
{
    if divisor == 0 {
        None
    } else {
        Some(x.wrapping_rem(divisor))
    }
}

/// A truth as a number.
pub fn truth(holds: bool) -> i64
    ensures { result ≡ (if holds then pos 1 else pos 0) }
{
    if holds { 1 } else { 0 }
}
