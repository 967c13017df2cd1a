//! Trace files with what they say, and verdicts on small traces.

use anyhow::{Result, bail};
use sig_judge::{Trace, judge, read_trace};
use sig_rows_base::flat_of;
use sig_tree::Flat;
use std::alloc::{AllocError, Global};
use std::fmt::Write;

/// Adds the instants of a trace file for a program, or the verdict on them where it is asked for; or the refusal.
pub(crate) fn write_trace(
    alloc: Global,
    out: &mut String,
    program: &[u8],
    bytes: &[u8],
    is_judged: bool,
) -> Result<()> {
    let flat = flat_of(alloc, program)?;
    match read_trace(alloc, bytes, &flat) {
        Ok(trace) if trace.rows.len() > 1000 => Ok(write!(out, "{}", trace.rows.len())?),
        Ok(trace) if is_judged => write_verdict(alloc, out, &flat, &trace),
        Ok(trace) => Ok(write_instants(out, &trace)?),
        Err(answer) => Ok(write!(out, "{answer}")?),
    }
}

/// Adds the instants of a trace.
fn write_instants(out: &mut String, trace: &Trace) -> Result<(), AllocError> {
    for row in &trace.rows {
        if !out.is_empty() {
            out.push(' ')?;
        }
        write!(out, "{:?}", row.as_slice())?;
    }
    Ok(())
}

/// Adds the verdict on a small trace of a small program.
fn write_verdict(alloc: Global, out: &mut String, flat: &Flat, trace: &Trace) -> Result<()> {
    if trace.rows.len() > 1000 || flat.body.len() > 1000 {
        bail!("the trace or the program is too long");
    }
    if !trace.is_of(&flat.signals) {
        bail!("the trace is not of the program");
    }
    Ok(write!(out, "{:?}", judge(alloc, flat, trace)?)?)
}
