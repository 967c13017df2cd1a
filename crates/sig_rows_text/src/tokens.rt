//! The tokens of texts.

use super::texts::lexed;
use sig_lex::{Token, TokenKind};
use std::alloc::{AllocError, Global};
use std::fmt::Write;

/// Adds a token, with its bytes and its place.
fn write_token(out: &mut String, text: &[u8], token: &Token) -> Result<(), AllocError> {
    match token.kind {
        TokenKind::Name => out.push_str("name "),
        TokenKind::Word => out.push_str("word "),
        TokenKind::Number(value) => write!(out, "number {value} "),
        TokenKind::Label => out.push_str("label "),
        TokenKind::Mark => out.push_str("mark "),
        TokenKind::Last => out.push_str("last "),
    }?;
    let bytes = text
        .get(token.start as usize..token.stop as usize)
        .unwrap_or(b"");
    for byte in bytes {
        out.push(char::from(*byte))?;
    }
    write!(out, " {}:{}\n", token.at.line, token.at.col)
}

/// Adds these tokens of a text; of more than 1,000 how many there are.
fn write_each(out: &mut String, text: &[u8], tokens: &[Token]) -> Result<(), AllocError> {
    if tokens.len() > 1000 {
        return write!(out, "{} of {}", tokens.len(), text.len());
    }
    for token in tokens {
        write_token(out, text, token)?;
    }
    Ok(())
}

/// Adds the tokens of a text, or the fault.
pub(crate) fn write_tokens(alloc: Global, out: &mut String, text: &[u8]) -> Result<(), AllocError> {
    match lexed(alloc, text) {
        Ok(tokens) => write_each(out, text, &tokens),
        Err(answer) => write!(out, "{answer}"),
    }
}
