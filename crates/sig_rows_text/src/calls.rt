//! Programs that are checked, with their kinds, and their flat bodies.

use anyhow::{Result, bail};
use sig_base::limits::PROGRAM_BYTES;
use sig_call::{inline, trees_of_texts};
use sig_front::tree;
use sig_rows_base::{read_program, written};
use sig_tree::{Flat, FlatEq, FlatExpr};
use sig_type::{check, check_owned};
use std::alloc::{AllocError, Global};
use std::fmt::Write;

/// Adds an expression.
fn write_expression(out: &mut String, e: &FlatExpr) -> Result<(), AllocError> {
    match e {
        FlatExpr::Sig(signal, _) => write!(out, "{}", signal.0)?,
        FlatExpr::Const(value, _, _) => write!(out, "[{value}]")?,
        FlatExpr::Binary(_, left, right, _) => {
            out.push('(')?;
            write_expression(out, left)?;
            out.push_str(" + ")?;
            write_expression(out, right)?;
            out.push(')')?;
        }
        FlatExpr::Delay(operand, init, _) => {
            write_expression(out, operand)?;
            write!(out, " $ {init}")?;
        }
        FlatExpr::Unary(..) | FlatExpr::Cell(..) => out.push('?')?,
    }
    Ok(())
}

/// Adds the signals with their clusters, and the definitions with their prefixes.
fn write_flat(out: &mut String, flat: &Flat) -> Result<(), AllocError> {
    for signal in &flat.signals {
        write!(out, "{} {}\n", written(&signal.name), signal.cluster)?;
    }
    for equation in &flat.body {
        if let FlatEq::Def(signal, e, prefix) = equation {
            write!(out, "{}{} := ", written(prefix), signal.0)?;
            write_expression(out, e)?;
            out.push('\n')?;
        }
    }
    Ok(())
}

/// Adds how many kinds a program is given back with, or its flat body, whichever is asked for; or the refusal.
pub(crate) fn write_typed(alloc: Global, out: &mut String, kind: &str, text: &[u8]) -> Result<()> {
    trees_of_texts();
    let program = read_program(alloc, text)?;
    match check_owned(alloc, program) {
        Ok(typed) => {
            if kind == "kinds" {
                write!(out, "{}", typed.kinds.len())
            } else {
                match inline(alloc, &typed) {
                    Ok(flat) => write_flat(out, &flat),
                    Err(answer) => write!(out, "{answer}"),
                }
            }
        }
        Err((_program, answer)) => write!(out, "{answer}"),
    }?;
    Ok(())
}

/// Adds that a text is read or that its program is checked, whichever is asked for, or the first refusal.
pub(crate) fn write_checked(
    alloc: Global,
    out: &mut String,
    kind: &str,
    text: &[u8],
) -> Result<()> {
    if text.len() > PROGRAM_BYTES {
        bail!("the text is too long");
    }
    match tree(alloc, text) {
        Ok(program) => {
            if kind == "read" {
                out.push_str("read")
            } else {
                match check(alloc, &program) {
                    Ok(()) => out.push_str("checked"),
                    Err(answer) => write!(out, "{answer}"),
                }
            }
        }
        Err(answer) => write!(out, "{answer}"),
    }?;
    Ok(())
}
