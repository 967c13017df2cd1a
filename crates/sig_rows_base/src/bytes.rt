//! How a text stands for bytes, as tests/rows/README.md tells.

use anyhow::{Context, Result};
use std::alloc::{AllocError, Global};

/// The bytes of a text.
pub fn bytes_of(alloc: Global, text: &str) -> Result<Vec<u8>> {
    let mut bytes = Vec::new(alloc);
    put_all(&mut bytes, text)?;
    Ok(bytes)
}

/// Adds the bytes of a text, piece by piece.
fn put_all(bytes: &mut Vec<u8>, text: &str) -> Result<()> {
    for (place, piece) in text.split("\\{").enumerate() {
        if place == 0 {
            put(bytes, piece, 0)?;
        } else {
            let (part, after) = piece.split_once("\\}").context("a part has no end")?;
            put_part(bytes, part)?;
            put(bytes, after, 0)?;
        }
    }
    Ok(())
}

/// Adds the bytes of a text for each number from its first one to its second one.
fn put_part(bytes: &mut Vec<u8>, part: &str) -> Result<()> {
    let (first, part) = part.split_once(' ').context("there is no first number")?;
    let (last, part) = part.split_once(' ').context("there is no last number")?;
    let (first, last) = (first.parse::<u32>()?, last.parse::<u32>()?);
    for step in 0..=first.abs_diff(last) {
        let number = if first < last {
            first.wrapping_add(step)
        } else {
            first.wrapping_sub(step)
        };
        put(bytes, part, number)?;
    }
    Ok(())
}

/// Adds the bytes of a text in which no part is repeated, with a number.
fn put(bytes: &mut Vec<u8>, text: &str, number: u32) -> Result<(), AllocError> {
    let mut is_escaped = false;
    for byte in text.bytes() {
        let was_escaped = is_escaped;
        is_escaped = byte == b'\\' && !was_escaped;
        if was_escaped && (byte == b'#' || byte == b'@') {
            put_number(bytes, number.saturating_add(u32::from(byte == b'@')))?;
        } else if !is_escaped {
            bytes.push(if was_escaped { meant(byte) } else { byte })?;
        }
    }
    Ok(())
}

fn put_number(bytes: &mut Vec<u8>, number: u32) -> Result<(), AllocError> {
    let shown = format!(in *bytes.allocator(); "{number}")?;
    bytes.extend_from_slice(shown.as_bytes())
}

/// The byte that one behind a backslash stands for.
fn meant(byte: u8) -> u8 {
    match byte {
        b'n' => b'\n',
        b'r' => b'\r',
        b't' => b'\t',
        b's' => b' ',
        b'0' => b'\0',
        b'7' => b'\x7f',
        b'8' => b'\x80',
        b'a' => b'\xa9',
        b'c' => b'\xc3',
        b'f' => b'\xff',
        _ => byte,
    }
}
