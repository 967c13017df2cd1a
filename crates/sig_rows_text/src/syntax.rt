//! What the parser and the printer say of a text.

use super::expressions::{write_constant, write_tree};
use super::texts::parsed;
use anyhow::Result;
use sig_print::print;
use sig_rows_base::written;
use sig_tree::{Body, Item, Process, Program, Right};
use std::alloc::{AllocError, Global};
use std::fmt::Write;

/// Adds what comes of a text that is parsed: `read`, its canonical text, the parts of its one process or its equation; or
/// the refusal.
pub(crate) fn write_parsed(
    alloc: Global,
    out: &mut String,
    kind: &str,
    bytes: &[u8],
) -> Result<()> {
    match parsed(alloc, bytes)? {
        Ok(program) if kind == "print" => write_printed(alloc, out, &program),
        Ok(program) => Ok(write_program(out, kind, program.processes.as_slice())?),
        Err(answer) => Ok(write!(out, "{answer}")?),
    }
}

/// Adds the canonical text of a program.
fn write_printed(alloc: Global, out: &mut String, program: &Program) -> Result<()> {
    let text = print(alloc, program)?;
    Ok(out.push_str(str::from_utf8(text.as_slice())?)?)
}

/// Adds what is asked of a program, where it has one process.
fn write_program(out: &mut String, kind: &str, processes: &[Process]) -> Result<(), AllocError> {
    match (kind, processes) {
        ("parts", [process]) => write_parts(out, process),
        ("tree", [process]) => write_body(out, &process.body),
        _ => out.push_str("read"),
    }
}

/// Adds an equation: its expression, or what else it is.
fn write_body(out: &mut String, body: &Body) -> Result<(), AllocError> {
    match body {
        Body::All(_) => out.push_str("all"),
        Body::Same(_) => out.push_str("same"),
        Body::Def(_, Right::Call(..)) => out.push_str("call"),
        Body::Def(_, Right::Value(e)) => write_tree(out, e),
    }
}

/// Adds the parts of a process.
fn write_parts(out: &mut String, process: &Process) -> Result<(), AllocError> {
    write_lengths(out, process)?;
    for group in &process.inputs {
        write!(out, " {:?}", group.kind)?;
    }
    for group in &process.outputs {
        write_inits(out, &group.items)?;
    }
    for run_on in &process.run_on {
        let label = written(&run_on.label);
        write!(out, " {} {:?} {label}", run_on.names.len(), run_on.at)?;
    }
    write_bodies(out, &process.body)
}

/// Adds the name of a process, and how many of each part it has.
fn write_lengths(out: &mut String, process: &Process) -> Result<(), AllocError> {
    let lengths = [
        process.params.len(),
        process.inputs.len(),
        process.outputs.len(),
        process.run_on.len(),
        process.locals.len(),
        process.inner.len(),
    ];
    let name = &process.name;
    write!(out, "{} {:?} {lengths:?}", written(&name.text), name.at)
}

/// Adds the initial values of declared names.
fn write_inits(out: &mut String, items: &[Item]) -> Result<(), AllocError> {
    for item in items {
        match &item.init {
            Some(constant) => write_constant(out, constant),
            None => out.push_str(" none"),
        }?;
    }
    Ok(())
}

/// Adds the equations of a body of several.
fn write_bodies(out: &mut String, body: &Body) -> Result<(), AllocError> {
    if let Body::All(bodies) = body {
        for body in bodies {
            out.push(' ')?;
            write_body(out, body)?;
        }
    }
    Ok(())
}
