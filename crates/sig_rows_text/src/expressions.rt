//! The trees of expressions, in writing.

use sig_rows_base::written;
use sig_tree::{BinOp, Constant, Expr, UnOp};
use std::alloc::AllocError;
use std::fmt::Write;

fn unary_text(op: UnOp) -> &'static str {
    match op {
        UnOp::Not => "not",
        UnOp::Neg => "-",
        UnOp::When => "when",
        UnOp::Clock => "^",
    }
}

fn binary_text(op: BinOp) -> &'static str {
    match op {
        BinOp::Default => "default",
        BinOp::When => "when",
        BinOp::Plus => "^+",
        BinOp::Meet => "^*",
        BinOp::Less => "^-",
        BinOp::Or => "or",
        BinOp::Xor => "xor",
        BinOp::And => "and",
        BinOp::Eq => "=",
        BinOp::Ne => "/=",
        BinOp::Lt => "<",
        BinOp::Le => "<=",
        BinOp::Gt => ">",
        BinOp::Ge => ">=",
        BinOp::Add => "+",
        BinOp::Sub => "-",
        BinOp::Mul => "*",
        BinOp::Div => "/",
        BinOp::Mod => "modulo",
    }
}

pub(crate) fn write_constant(out: &mut String, constant: &Constant) -> Result<(), AllocError> {
    match constant {
        Constant::Int(value, _) => write!(out, " init {value}"),
        Constant::Bool(truth, _) => write!(out, " init {truth}"),
        Constant::Param(name) => write!(out, " init {}", written(&name.text)),
    }
}

/// An expression with parentheses around each operator.
pub(crate) fn write_tree(out: &mut String, e: &Expr) -> Result<(), AllocError> {
    match e {
        Expr::Name(name) => return out.push_str(written(&name.text)),
        Expr::Int(value, _) => return write!(out, "{value}"),
        Expr::Bool(truth, _) => return write!(out, "{truth}"),
        _ => out.push('(')?,
    }
    match e {
        Expr::Unary(op, operand, _) => {
            write!(out, "{} ", unary_text(*op))?;
            write_tree(out, operand)?;
        }
        Expr::Binary(op, left, right, _) => {
            write_tree(out, left)?;
            write!(out, " {} ", binary_text(*op))?;
            write_tree(out, right)?;
        }
        Expr::Delay(operand, init, _) => {
            write_tree(out, operand)?;
            out.push_str(" $")?;
            if let Some(constant) = init {
                write_constant(out, constant)?;
            }
        }
        Expr::Cell(operand, held, init, _) => {
            write_tree(out, operand)?;
            out.push_str(" cell ")?;
            write_tree(out, held)?;
            write_constant(out, init)?;
        }
        _ => {}
    }
    out.push(')')
}
