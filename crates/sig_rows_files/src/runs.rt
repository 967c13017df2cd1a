//! Runs of images.

use super::fits::fits;
use super::images::verified;
use anyhow::{Context, Result, bail};
use sig_exec::{Verified, exec};
use sig_kernel::{Flow, Inputs};
use sig_text::MemSink;
use std::alloc::Global;
use std::fmt::Write;

/// Adds the end of the run of an image, and its text. The words are the limit, the room of the sink and the image's, and
/// behind a `~` the values of each input.
pub(crate) fn write_run(alloc: Global, out: &mut String, program: &[u8], text: &str) -> Result<()> {
    let (head, lines) = text.split_once('~').unwrap_or((text, ""));
    let (limit, head) = head.split_once(' ').context("there is no limit")?;
    let (room, words) = head.split_once(' ').context("there is no room")?;
    let (limit, room) = (limit.parse::<u32>()?, room.parse::<u32>()?);
    let image = verified(alloc, program, words)?;
    let inputs = inputs_of(alloc, lines)?;
    write_ended(alloc, out, &image, &inputs, limit, room)
}

/// Runs an image on flows that fit it.
fn write_ended(
    alloc: Global,
    out: &mut String,
    image: &Verified,
    inputs: &Inputs,
    limit: u32,
    room: u32,
) -> Result<()> {
    if !fits(image, inputs) {
        bail!("the flows do not fit");
    }
    let mut sink = MemSink::new(alloc, room)?;
    let ended = exec(alloc, image, inputs, limit, &mut sink);
    let text = str::from_utf8(sink.bytes())?;
    Ok(write!(out, "{ended:?}\n{text}")?)
}

/// Flows of the values in each line.
fn inputs_of(alloc: Global, lines: &str) -> Result<Inputs> {
    let mut flows = Vec::new(alloc);
    for line in lines.split('~') {
        flows.push(Flow::from(values_of(alloc, line)?))?;
    }
    Ok(Inputs::from(flows))
}

/// The values in a line.
fn values_of(alloc: Global, line: &str) -> Result<Vec<i64>> {
    let mut values = Vec::new(alloc);
    for word in line.split_whitespace() {
        values.push(word.parse::<i64>()?)?;
    }
    Ok(values)
}
