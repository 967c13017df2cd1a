//! The tokens and the trees of texts.

use anyhow::{Result, bail};
use sig_base::limits::PROGRAM_BYTES;
use sig_lex::{LexAnswer, Token, lex};
use sig_parse::{ParseAnswer, parse};
use sig_tree::Program;
use std::alloc::Global;

/// The tokens of a text that is not too long.
pub(crate) fn lexed(alloc: Global, text: &[u8]) -> Result<Vec<Token>, LexAnswer> {
    if text.len() <= PROGRAM_BYTES {
        lex(alloc, text)
    } else {
        Err(LexAnswer::OutOfMemory)
    }
}

/// The program of a text, or its refusal.
pub(crate) fn parsed(alloc: Global, text: &[u8]) -> Result<Result<Program, ParseAnswer>> {
    if text.len() > PROGRAM_BYTES {
        bail!("the text is too long");
    }
    let tokens = lex(alloc, text)?;
    Ok(parse(alloc, text, &tokens))
}
