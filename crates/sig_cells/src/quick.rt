//! Functions of values where no fault comes.

ghost use Rattle.std.specs.Prelude.{◌≡◌, ◌∷◌};
ghost use Rattle.sig_cells.specs.Prelude.{[], ℕ, ℤ, List, IfSome, IsSomeAnd, Ok, answered, computed, function_of, truth_value};
ghost use Rattle.sig_cells.specs.Opcodes.{work_of};
ghost use Rattle.sig_cells.specs.inner.Quick.{ComesTo};
ghost use Rattle.sig_cells.specs.Instructions.{cell, no_equation};
ghost use Rattle.sig_cells.specs.inner.Quick.{IsFitting};

use crate::coded::Opcode;
use sig_kernel::FunOp;

/// What the instruction of an opcode comes to that reads these values, where it has one and no fault.
#[inline(always)]
pub(crate) fn value_by(opcode: Opcode, a: i64, b: i64) -> Option<i64>
    ensures { (values : List ℤ) (x y : ℕ) → cell values x ≡ a → cell values y ≡ b
        → IfSome result (λ v. IsSomeAnd (work_of opcode x y) (ComesTo values v)) }
{
    match opcode {
        Opcode::Other => None,
        Opcode::Copy => Some(a),
        Opcode::Id => quickly_of_one(FunOp::Id, a),
        Opcode::Not => quickly_of_one(FunOp::Not, a),
        Opcode::And => quickly_of_two(FunOp::And, a, b),
        Opcode::Or => quickly_of_two(FunOp::Or, a, b),
        Opcode::Xor => quickly_of_two(FunOp::Xor, a, b),
        Opcode::Eq => quickly_of_two(FunOp::Eq, a, b),
        Opcode::Ne => quickly_of_two(FunOp::Ne, a, b),
        Opcode::Lt => quickly_of_two(FunOp::Lt, a, b),
        Opcode::Le => quickly_of_two(FunOp::Le, a, b),
        Opcode::Gt => quickly_of_two(FunOp::Gt, a, b),
        Opcode::Ge => quickly_of_two(FunOp::Ge, a, b),
        Opcode::Add => quickly_of_two(FunOp::Add, a, b),
        Opcode::Sub => quickly_of_two(FunOp::Sub, a, b),
        Opcode::Mul => quickly_of_two(FunOp::Mul, a, b),
    }
}

/// What a function gives of one value, or nothing, where it has a fault or is not among those told here.
#[inline(always)]
fn quickly_of_one(function: FunOp, a: i64) -> Option<i64>
    ensures { IfSome result (λ v. Ok v ≡ answered (computed no_equation (function_of function) (a ∷ []))) }
{
    match function {
        FunOp::Id => Some(a),
        FunOp::Not => Some(truth(a != 1)),
        _ => None,
    }
}

/// What a function gives of two values, or nothing, where it has a fault or is not among those told here.
#[inline(always)]
fn quickly_of_two(function: FunOp, a: i64, b: i64) -> Option<i64>
    ensures { IfSome result (λ v. Ok v ≡ answered (computed no_equation (function_of function) (a ∷ b ∷ []))) }
{
    match function {
        FunOp::Add => fitting(a.checked_add(b)),
        FunOp::Sub => fitting(a.checked_sub(b)),
        FunOp::Mul => fitting(a.checked_mul(b)),
        FunOp::And => Some(truth(a == 1 && b == 1)),
        FunOp::Or => Some(truth(a == 1 || b == 1)),
        FunOp::Xor | FunOp::Ne => Some(truth(a != b)),
        FunOp::Eq => Some(truth(a == b)),
        FunOp::Lt => Some(truth(a < b)),
        FunOp::Le => Some(truth(a <= b)),
        FunOp::Gt => Some(truth(a > b)),
        FunOp::Ge => Some(truth(a >= b)),
        FunOp::Div | FunOp::Mod | FunOp::Id | FunOp::Neg | FunOp::Not => None,
    }
}

/// A result that has 64 bits.
#[inline(always)]
fn fitting(value: Option<i64>) -> Option<i64>
    ensures { IsFitting value result }
{
    match value {
        Some(value) => Some(value),
        None => None,
    }
}

/// A truth as a value.
#[inline(always)]
fn truth(holds: bool) -> i64
    ensures { result ≡ truth_value holds }
{
    if holds { 1 } else { 0 }
}
