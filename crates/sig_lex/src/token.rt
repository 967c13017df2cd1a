//! Tokens.

use sig_base::Span;

/// What a token is.
#[derive(Clone, Copy, Debug, PartialEq, Eq)]
pub enum TokenKind {
    /// A letter, then letters, digits and `_`, and no reserved word.
    Name,
    /// A reserved word.
    Word,
    /// A run of digits, with its value, at most 9223372036854775807.
    Number(u64),
    /// Printable bytes between two `"`, which belong to the token.
    Label,
    /// A mark, as `:=`.
    Mark,
    /// The end of the text.
    Last,
}

/// A token: the slice from `start` up to `stop` of the text's bytes, which begins at the place `at`.
#[derive(Clone, Copy, Debug, PartialEq, Eq)]
pub struct Token {
    pub kind: TokenKind,
    pub start: u32,
    pub stop: u32,
    pub at: Span,
}
