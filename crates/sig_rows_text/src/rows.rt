//! The rows about texts, by their kinds.

use super::calls::{write_checked, write_typed};
use super::kernels::write_kernel;
use super::labels::{write_labels, write_neighbours};
use super::made::write_valid;
use super::scopes::{write_processes, write_texts};
use super::syntax::write_parsed;
use super::tokens::write_tokens;
use super::words::write_words;
use anyhow::Result;
use sig_call::CallAnswer;
use sig_flat::FlatAnswer;
use sig_lex::LexAnswer;
use sig_rows_base::bytes_of;
use sig_words::WordsAnswer;
use std::alloc::{AllocError, Global};
use std::fmt::Write;

/// Adds the answer of a row about a text.
pub fn write_text_row(alloc: Global, out: &mut String, kind: &str, text: &str) -> Result<()> {
    let bytes = bytes_of(alloc, text)?;
    write_answer(alloc, out, kind, text, &bytes)
}

/// Adds the answer of a row about a text, which stands for these bytes.
fn write_answer(
    alloc: Global,
    out: &mut String,
    kind: &str,
    text: &str,
    bytes: &[u8],
) -> Result<()> {
    match kind {
        "line" => Ok(write_line(out, text)?),
        "tokens" => Ok(write_tokens(alloc, out, bytes)?),
        "neighbours" => write_neighbours(alloc, out, text),
        "labels" => Ok(write_labels(alloc, out)?),
        "parse" | "tree" | "print" | "parts" => write_parsed(alloc, out, kind, bytes),
        "texts" => write_texts(alloc, out, text),
        "processes" => write_processes(alloc, out, text),
        "valid" | "fits" => write_valid(alloc, out, kind, text),
        "read" | "types" => write_checked(alloc, out, kind, bytes),
        "kinds" | "inline" => write_typed(alloc, out, kind, bytes),
        "words" => Ok(write_words(alloc, out, text)?),
        _ => write_kernel(alloc, out, kind, bytes),
    }
}

/// Adds the line of an answer that takes too much to come to.
fn write_line(out: &mut String, name: &str) -> Result<(), AllocError> {
    match name {
        "lex" => write!(out, "{}", LexAnswer::OutOfMemory),
        "call" => write!(out, "{}", CallAnswer::OutOfMemory),
        "flat" => write!(out, "{}", FlatAnswer::OutOfMemory),
        _ => write!(out, "{}", WordsAnswer::OutOfMemory),
    }
}
