//! The leaves of a text: its tokens as terminals.

ghost use Rattle.std.specs.Prelude.{◌≡◌, ◌≢◌};
ghost use Rattle.sig_parse.specs.Prelude.{IfOk, map, option_map, Spells, text_of, StandsIn, AreTokens, Last, terminal_of, leaf_of, leaves_of};
ghost use Rattle.sig_parse.specs.Seen.{terminal_seen, leaf_seen};

use crate::keyword::{Keyword, reserved, sign};
use crate::natural::Natural;
use sig_base::Span;
use sig_lex::{Token, TokenKind, these_tokens};
use std::alloc::{AllocFailed, Global};

/// What a token says: a name, a number, a label without its quotes, or a reserved word or a mark.
#[derive(Clone, Copy, Drop)]
pub enum Terminal<'a> {
    Name(&'a [u8]),
    Number(Natural),
    Label(&'a [u8]),
    Keyword(Keyword),
}

/// A terminal where it stands in the text.
#[derive(Clone, Copy, Drop)]
pub struct Leaf<'a> {
    pub terminal: Terminal<'a>,
    pub at: Span,
}

/// What a token says, and none at the end of the text.
fn terminal_at<'a>(bytes: &'a [u8], token: &Token) -> Option<Terminal<'a>>
    requires stands { StandsIn bytes.now token.now }
    requires spelled { token.now.kind ≢ Last → Spells token.now.kind (text_of bytes.now token.now) }
    ensures { option_map terminal_seen result ≡ terminal_of token.now.kind (text_of bytes.now token.now) }
{
    let text = &bytes[token.start as usize..token.stop as usize];
    match token.kind {
        TokenKind::Name => Some(Terminal::Name(text)),
        TokenKind::Word => Some(Terminal::Keyword(reserved(text))),
        TokenKind::Number(value) => Some(Terminal::Number(Natural { value })),
        TokenKind::Label => Some(Terminal::Label(&text[1..text.len() - 1])),
        TokenKind::Mark => Some(Terminal::Keyword(sign(text))),
        TokenKind::Last => None,
    }
}

/// The leaf that a token is, and none at the end of the text.
fn leaf_at<'a>(bytes: &'a [u8], token: &Token) -> Option<Leaf<'a>>
    requires stands { StandsIn bytes.now token.now }
    requires spelled { token.now.kind ≢ Last → Spells token.now.kind (text_of bytes.now token.now) }
    ensures { option_map leaf_seen result ≡ leaf_of bytes.now token.now }
{
    match terminal_at(bytes, token) {
        Some(terminal) => Some(Leaf {
            terminal,
            at: token.at,
        }),
        None => None,
    }
}

/// The leaves of a text, in order.
fn leaves<'a>(
    alloc: Global,
    bytes: &'a [u8],
    tokens: &[Token],
) -> Result<Vec<Leaf<'a>>, AllocFailed<Leaf<'a>>>
    requires { AreTokens bytes.now tokens.now }
    ensures { IfOk result (λ leaves. map leaf_seen leaves.items ≡ leaves_of bytes.now tokens.now) }
{
    these_tokens(bytes, tokens);
    let mut leaves = Vec::new(alloc);
    for token in tokens {
        if let Some(leaf) = leaf_at(bytes, token) {
            leaves.push(leaf)?;
        }
    }
    Ok(leaves)
}

/// The leaves of a text, in order. The memory of its tokens is let go.
pub fn into_leaves<'a>(
    alloc: Global,
    bytes: &'a [u8],
    tokens: Vec<Token>,
) -> Result<Vec<Leaf<'a>>, AllocFailed<Leaf<'a>>>
    requires { AreTokens bytes.now tokens.items }
    ensures { IfOk result (λ leaves. map leaf_seen leaves.items ≡ leaves_of bytes.now tokens.items) }
{
    leaves(alloc, bytes, &tokens)
}
