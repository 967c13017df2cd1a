//! Values, event files and flow files, with what they say.

use anyhow::Result;
use sig_base::{Kind, Text};
use sig_flow::{put_value, read_events, read_named};
use sig_kernel::Inputs;
use sig_rows_base::flat_of;
use sig_text::MemSink;
use std::alloc::{AllocError, Global};
use std::fmt::Write;

/// Adds the values that are put for a signal Y into a sink with room for so many bytes.
pub(crate) fn write_put(alloc: Global, out: &mut String, text: &str) -> Result<()> {
    let (room, values) = text.split_once(' ').unwrap_or((text, ""));
    let mut sink = MemSink::new(alloc, room.parse::<u32>()?)?;
    write_sink(alloc, out, &mut sink, values)
}

/// Adds what a sink took of the values, and whether one found no room.
fn write_sink(alloc: Global, out: &mut String, sink: &mut MemSink, values: &str) -> Result<()> {
    let is_full = put_values(alloc, sink, values)?;
    let fault = if is_full { " fault" } else { "" };
    Ok(write!(out, "{}{fault}", str::from_utf8(sink.bytes())?)?)
}

/// Puts the values, each behind its kind, and tells whether one found no room.
fn put_values(alloc: Global, sink: &mut MemSink, text: &str) -> Result<bool> {
    let name = Text::from_bytes(alloc, b"Y")?;
    let mut words = text.split_whitespace();
    let mut is_full = false;
    while let Some(kind) = words.next() {
        let value = words.next().unwrap_or("").parse::<i64>()?;
        if put_value(sink, &name, kind_of(kind), value).is_err() {
            is_full = true;
        }
    }
    Ok(is_full)
}

fn kind_of(name: &str) -> Kind {
    match name {
        "integer" => Kind::Integer,
        "boolean" => Kind::Boolean,
        _ => Kind::Event,
    }
}

/// Adds the events of an event file, or the refusal.
pub(crate) fn write_events(
    alloc: Global,
    out: &mut String,
    bytes: &[u8],
) -> Result<(), AllocError> {
    match read_events(alloc, bytes) {
        Ok(events) if events.len() > 1000 => write!(out, "{}", events.len()),
        Ok(events) => write!(out, "{events:?}"),
        Err(answer) => write!(out, "{answer}"),
    }
}

/// Adds the flows of a flow file for the inputs of a program, or the refusal.
pub(crate) fn write_flows(
    alloc: Global,
    out: &mut String,
    program: &[u8],
    bytes: &[u8],
) -> Result<()> {
    let inputs = flat_of(alloc, program)?.signals;
    match read_named(alloc, bytes, &inputs) {
        Ok(flows) => write_each(out, &flows),
        Err(answer) => write!(out, "{answer}"),
    }?;
    Ok(())
}

fn write_each(out: &mut String, flows: &Inputs) -> Result<(), AllocError> {
    if flows.as_slice().is_empty() {
        return out.push_str("none");
    }
    for flow in flows.as_slice() {
        if !out.is_empty() {
            out.push(' ')?;
        }
        write_values(out, flow.as_slice())?;
    }
    Ok(())
}

/// Adds the values of a flow; of more than 1,000 how many there are.
fn write_values(out: &mut String, values: &[i64]) -> Result<(), AllocError> {
    if values.len() > 1000 {
        write!(out, "{}", values.len())
    } else {
        write!(out, "{values:?}")
    }
}
