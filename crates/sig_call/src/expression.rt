//! Expressions of a copy, with their names replaced.

ghost use Rattle.std.specs.Prelude.{◌≡◌};
ghost use Rattle.sig_call.specs.Prelude.{map, IfOk, AllByRecursion, expression_of, flat_expression_of, binding_of, flat_name, flat_unary, flat_of, flat_right, IsSmall};
ghost use Rattle.sig_call.specs.inner.Copies.{copy_in};

use crate::binding::Binding;
use crate::copy::ProcessCopy;
use sig_base::{Kind, SigId, Span};
use sig_tree::{Expr, FlatExpr, Name, UnOp};
use std::alloc::{AllocError, Global};

/// A name.
fn flat_name(copy: &ProcessCopy, name: &Name) -> FlatExpr
    ensures { flat_expression_of result ≡ flat_name (binding_of (copy_in copy.now) name.now.text) name.now.at }
{
    match copy.binding(name) {
        Some(Binding::Signal(number)) => FlatExpr::Sig(number, name.at),
        Some(Binding::Constant(value, kind)) => FlatExpr::Const(value, kind, name.at),
        None => FlatExpr::Sig(SigId(0), name.at),
    }
}

/// An operator before its operand, which is also given with its names replaced.
fn flat_unary(
    alloc: Global,
    op: UnOp,
    operand: &Expr,
    flat: FlatExpr,
    at: Span,
) -> Result<FlatExpr, AllocError>
    requires { IsSmall (expression_of operand.now) }
    ensures { IfOk result (λ made. flat_expression_of made ≡ flat_unary op (expression_of operand.now) (flat_expression_of flat) at) }
{
    match (op, operand) {
        (UnOp::Neg, Expr::Int(value, _)) => {
            Ok(FlatExpr::Const(-(*value as i64), Kind::Integer, at))
        }
        _ => Ok(FlatExpr::Unary(op, Box::new(alloc, flat)?, at)),
    }
}

/// An expression.
pub fn flat_expression(alloc: Global, copy: &ProcessCopy, e: &Expr) -> Result<FlatExpr, AllocError>
    requires { IsSmall (expression_of e.now) }
    ensures { IfOk result (λ flat. flat_expression_of flat ≡ flat_of (copy_in copy.now) (expression_of e.now)) }
{
    match e {
        Expr::Name(name) => Ok(flat_name(copy, name)),
        Expr::Int(value, at) => Ok(FlatExpr::Const(*value as i64, Kind::Integer, *at)),
        Expr::Bool(truth, at) => Ok(FlatExpr::Const(i64::from(*truth), Kind::Boolean, *at)),
        Expr::Unary(op, operand, at) => {
            let flat = flat_expression(alloc, copy, operand)?;
            flat_unary(alloc, *op, operand, flat, *at)
        }
        Expr::Binary(op, left, right, at) => {
            let left = Box::new(alloc, flat_expression(alloc, copy, left)?)?;
            let right = Box::new(alloc, flat_expression(alloc, copy, right)?)?;
            Ok(FlatExpr::Binary(*op, left, right, *at))
        }
        Expr::Delay(operand, init, at) => {
            let operand = Box::new(alloc, flat_expression(alloc, copy, operand)?)?;
            Ok(FlatExpr::Delay(operand, copy.init(init), *at))
        }
        Expr::Cell(operand, held, init, at) => {
            let operand = Box::new(alloc, flat_expression(alloc, copy, operand)?)?;
            let held = Box::new(alloc, flat_expression(alloc, copy, held)?)?;
            Ok(FlatExpr::Cell(operand, held, copy.value(init), *at))
        }
    }
}

/// A whole right side. A delay without an init has the one with which the left side is declared.
pub fn flat_right(
    alloc: Global,
    copy: &ProcessCopy,
    left: &Name,
    e: &Expr,
) -> Result<FlatExpr, AllocError>
    requires { IsSmall (expression_of e.now) }
    ensures { IfOk result (λ flat. flat_expression_of flat ≡ flat_right (copy_in copy.now) left.now (expression_of e.now)) }
{
    match e {
        Expr::Delay(operand, None, at) => {
            let operand = Box::new(alloc, flat_expression(alloc, copy, operand)?)?;
            Ok(FlatExpr::Delay(operand, copy.declared_init(left), *at))
        }
        _ => flat_expression(alloc, copy, e),
    }
}

/// Expressions.
pub fn flat_expressions(
    alloc: Global,
    copy: &ProcessCopy,
    all: &[Expr],
) -> Result<Vec<FlatExpr>, AllocError>
    requires { AllByRecursion IsSmall (map expression_of all.now) }
    ensures { IfOk result (λ flat. map flat_expression_of flat.items ≡ map (flat_of (copy_in copy.now)) (map expression_of all.now)) }
{
    let mut flat = Vec::new(alloc);
    for e in all {
        flat.push(flat_expression(alloc, copy, e)?)?;
    }
    Ok(flat)
}
