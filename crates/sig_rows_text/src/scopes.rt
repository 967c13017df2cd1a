//! Texts by their places, and the processes of a program.

use anyhow::{Context, Result};
use sig_rows_base::read_program;
use sig_scope::{Processes, Texts, flat_equations};
use sig_tree::Program;
use std::alloc::{AllocError, Global};
use std::fmt::Write;

/// Adds whether each of the words before was there when it was added, and the places of those behind.
pub(crate) fn write_texts(alloc: Global, out: &mut String, text: &str) -> Result<()> {
    let (added, asked) = text.split_once(" ~ ").context("there is no list behind")?;
    Ok(write_places(alloc, out, added, asked)?)
}

fn write_places(
    alloc: Global,
    out: &mut String,
    added: &str,
    asked: &str,
) -> Result<(), AllocError> {
    let mut texts = Texts::new(alloc);
    for word in added.split(' ') {
        write!(out, "{} ", texts.add(word.as_bytes())?)?;
    }
    for word in asked.split(' ') {
        write!(out, "{:?} ", texts.place(word.as_bytes()))?;
    }
    let _ = out.pop();
    Ok(())
}

/// Adds how many processes the program has, and the place and the number of equations of each that is named.
pub(crate) fn write_processes(alloc: Global, out: &mut String, text: &str) -> Result<()> {
    let (names, text) = text.split_once(" ~ ").context("there is no program")?;
    let program = read_program(alloc, text.as_bytes())?;
    Ok(write_each(alloc, out, &program, names)?)
}

fn write_each(
    alloc: Global,
    out: &mut String,
    program: &Program,
    names: &str,
) -> Result<(), AllocError> {
    let processes = Processes::new(alloc, program)?;
    write!(out, "{}", processes.as_slice().len())?;
    for name in names.split(' ') {
        write_process(alloc, out, &processes, name.as_bytes())?;
    }
    Ok(())
}

/// Adds the place of the process of this name, and its number of equations, where it is one.
fn write_process(
    alloc: Global,
    out: &mut String,
    processes: &Processes,
    name: &[u8],
) -> Result<(), AllocError> {
    write!(out, " {:?}", processes.place(name))?;
    if let Some(interface) = processes.get(name) {
        let equations = flat_equations(alloc, &interface.process.body)?;
        write!(out, " {}", equations.len())?;
    }
    Ok(())
}
