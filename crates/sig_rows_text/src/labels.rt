//! Tokens beside their neighbours, and the bytes of labels.

use super::texts::lexed;
use anyhow::{Result, bail};
use sig_lex::Token;
use sig_rows_base::bytes_of;
use std::alloc::{AllocError, Global};
use std::fmt::Write;

/// Whether the first token between these bytes is of the kind.
fn is_among(
    alloc: Global,
    tokens: &[Token],
    kind: &str,
    start: usize,
    stop: usize,
) -> Result<bool, AllocError> {
    for token in tokens {
        if token.start as usize == start && token.stop as usize == stop {
            let found = format!(in alloc; "{:?}", token.kind)?;
            return Ok(found.as_str() == kind);
        }
    }
    Ok(false)
}

/// Whether the text has a token of the kind between these bytes.
fn has_token(alloc: Global, text: &[u8], kind: &str, start: usize, stop: usize) -> Result<bool> {
    let tokens = lexed(alloc, text)?;
    Ok(is_among(alloc, &tokens, kind, start, stop)?)
}

/// Whether the text that is asked for, and so many bytes behind it, are a token of the kind beside its neighbours.
fn is_token(
    alloc: Global,
    kind: &str,
    more: usize,
    before: &str,
    asked: &str,
    behind: &str,
) -> Result<bool> {
    let mut text = bytes_of(alloc, before)?;
    let start = text.len();
    text.extend_from_slice(asked.as_bytes())?;
    let stop = text.len().wrapping_add(more);
    text.extend_from_slice(bytes_of(alloc, behind)?.as_slice())?;
    has_token(alloc, text.as_slice(), kind, start, stop)
}

/// Adds how many texts of a list before, a list asked for and a list behind have their token.
pub(crate) fn write_neighbours(alloc: Global, out: &mut String, words: &str) -> Result<()> {
    let words: Vec<&str> = words.split(' ').collect(alloc)?;
    let [kind, more, before, asked, behind] = words.as_slice() else {
        bail!("there are five words");
    };
    let lists = [*before, *asked, *behind];
    let count = count_of(alloc, kind, more.parse::<usize>()?, lists)?;
    Ok(write!(out, "{count}")?)
}

fn count_of(
    alloc: Global,
    kind: &str,
    more: usize,
    [before, asked, behind]: [&str; 3],
) -> Result<u32> {
    let mut count: u32 = 0;
    for before in before.split('~') {
        for asked in asked.split('~') {
            for behind in behind.split('~') {
                let is_one = is_token(alloc, kind, more, before, asked, behind)?;
                count = count.wrapping_add(u32::from(is_one));
            }
        }
    }
    Ok(count)
}

/// Adds the bytes that may stand in a label.
pub(crate) fn write_labels(alloc: Global, out: &mut String) -> Result<(), AllocError> {
    let mut kept = Vec::new(alloc);
    for byte in 0..=255u8 {
        if lexed(alloc, &[b'"', byte, b'"']).is_ok() {
            kept.push(byte)?;
        }
    }
    write!(out, "{kept:?}")
}
