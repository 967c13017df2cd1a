//! The kernels of flat bodies and of programs.

use anyhow::{Context, Result, bail};
use sig_base::limits::PROGRAM_BYTES;
use sig_base::{Kind, Signal, Span, Text};
use sig_flat::to_kernel;
use sig_front::front;
use sig_kernel::Kernel;
use sig_rows_base::{flat_of, written};
use sig_tree::Flat;
use std::alloc::{AllocError, Global};
use std::fmt::Write;

/// A flat body of this many signals and no equation.
fn undefined(alloc: Global, count: usize) -> Result<Flat, AllocError> {
    let mut signals = Vec::new(alloc);
    for _ in 0..count {
        signals.push(Signal {
            name: Text::from_bytes(alloc, b"X")?,
            kind: Kind::Integer,
            cluster: 0,
            at: Span { line: 1, col: 1 },
        })?;
    }
    Ok(Flat {
        signals,
        inputs: 0,
        outputs: 0,
        body: Vec::new(alloc),
    })
}

/// Adds how many of each there are in a kernel, and the names of some signals.
fn write_names(
    out: &mut String,
    kernel: &Kernel,
    first: usize,
    last: usize,
) -> Result<(), AllocError> {
    let signals = kernel.signals.as_slice();
    write!(
        out,
        "{} {} {} {} {}",
        kernel.inputs,
        kernel.outputs,
        kernel.declared,
        signals.len(),
        kernel.equations.as_slice().len()
    )?;
    for signal in signals.get(first..last).unwrap_or(&[]) {
        write!(out, " {}", written(&signal.name))?;
    }
    Ok(())
}

/// Adds the clusters of some signals, and the forms of the equations.
fn write_forms(
    out: &mut String,
    kernel: &Kernel,
    first: usize,
    last: usize,
) -> Result<(), AllocError> {
    for signal in kernel.signals.as_slice().get(first..last).unwrap_or(&[]) {
        write!(out, "{} ", signal.cluster)?;
    }
    let _ = out.pop();
    for equation in kernel.equations.as_slice() {
        write!(out, "\n{:?}", equation.form)?;
    }
    Ok(())
}

/// Adds what is asked of the kernel of a program, or the refusal.
pub(crate) fn write_kernel(
    alloc: Global,
    out: &mut String,
    kind: &str,
    bytes: &[u8],
) -> Result<()> {
    let text = str::from_utf8(bytes)?;
    let (first, text) = text.split_once(' ').context("there is no first number")?;
    let (last, text) = text.split_once(' ').context("there is no last number")?;
    let (first, last) = (first.parse::<usize>()?, last.parse::<usize>()?);
    match kind {
        "front" => write_front(alloc, out, text.as_bytes(), first, last),
        "undefined" => write_flat(alloc, out, kind, &undefined(alloc, last)?, first, last),
        _ => write_flat(
            alloc,
            out,
            kind,
            &flat_of(alloc, text.as_bytes())?,
            first,
            last,
        ),
    }
}

/// Adds the names of the kernel of a text, or the refusal.
fn write_front(
    alloc: Global,
    out: &mut String,
    text: &[u8],
    first: usize,
    last: usize,
) -> Result<()> {
    if text.len() > PROGRAM_BYTES {
        bail!("the text is too long");
    }
    match front(alloc, text) {
        Ok(kernel) => write_names(out, &kernel, first, last),
        Err(answer) => write!(out, "{answer}"),
    }?;
    Ok(())
}

/// Adds what is asked of the kernel of a flat body, or the refusal.
fn write_flat(
    alloc: Global,
    out: &mut String,
    kind: &str,
    flat: &Flat,
    first: usize,
    last: usize,
) -> Result<()> {
    match to_kernel(alloc, flat) {
        Ok(kernel) if kind == "forms" => write_forms(out, &kernel, first, last),
        Ok(kernel) => write_names(out, &kernel, first, last),
        Err(answer) => write!(out, "{answer}"),
    }?;
    Ok(())
}
