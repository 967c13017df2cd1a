//! The rows about files, by their kinds.

use super::flows::{write_events, write_flows, write_put};
use super::images::{image_of, write_built, write_cuts, write_image_read, write_sets};
use super::runs::write_run;
use super::traces::write_trace;
use anyhow::Result;
use sig_file::FileAnswer;
use sig_rows_base::bytes_of;
use std::alloc::Global;
use std::fmt::Write;

/// Adds the answer of a row about a file, with a program.
pub fn write_file_row(
    alloc: Global,
    out: &mut String,
    program: &[u8],
    kind: &str,
    text: &str,
) -> Result<()> {
    let bytes = bytes_of(alloc, text)?;
    write_answer(alloc, out, program, kind, text, &bytes)
}

/// Adds the answer of a row about a file, whose text stands for these bytes.
fn write_answer(
    alloc: Global,
    out: &mut String,
    program: &[u8],
    kind: &str,
    text: &str,
    bytes: &[u8],
) -> Result<()> {
    match kind {
        "line" => Ok(write!(out, "{}", FileAnswer::TooLong(67_108_864))?),
        "put" => write_put(alloc, out, text),
        "events" => Ok(write_events(alloc, out, bytes)?),
        "flows" => write_flows(alloc, out, program, bytes),
        "trace" => write_trace(alloc, out, program, bytes, false),
        "judge" => write_trace(alloc, out, program, bytes, true),
        _ => of_image(alloc, out, program, kind, str::from_utf8(bytes)?),
    }
}

/// Adds what comes of an image.
fn of_image(alloc: Global, out: &mut String, program: &[u8], kind: &str, text: &str) -> Result<()> {
    match kind {
        "built" => write_built(alloc, out, program, text),
        "cuts" => Ok(write_cuts(alloc, out, &image_of(alloc, program, text)?)?),
        "set" => write_sets(alloc, out, program, text),
        "exec" => write_run(alloc, out, program, text),
        _ => write_image_read(alloc, out, &image_of(alloc, program, text)?),
    }
}
