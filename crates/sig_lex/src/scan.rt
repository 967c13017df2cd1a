//! The scan of a text from its first byte to its last.

ghost use Rattle.std.specs.Prelude.{◌≡◌, ◌+◌, ◌<◌, ◌≤◌, ◌^◌, ◌++◌, ◌⊎◌};
ghost use Rattle.sig_lex.specs.Prelude.{ℕ, List, OnOk, IfOk, IfErr, IsErrAnd, MatchResult, length, take, drop, option_to_list, option_map, PROGRAM_BYTES};
ghost use Rattle.sig_lex.specs.declared.token.Token.{Token};
ghost use Rattle.sig_lex.specs.declared.answer.LexAnswer.{LexAnswer};
ghost use Rattle.sig_lex.specs.inner.Places.{place_after};
ghost use Rattle.sig_lex.specs.Tokens.{AreTokens, IsFirstFault, IsPiece, token_of};

use crate::answer::LexAnswer;
use crate::piece::{Piece, piece_of};
use crate::place::advanced;
use crate::token::{Token, TokenKind};
use sig_base::Span;
use std::alloc::{AllocFailed, Global};

/// Adds the token that the piece is, if it is one.
fn add(
    tokens: &mut Vec<Token>,
    piece: Piece,
    start: usize,
    at: Span,
) -> Result<(), AllocFailed<Token>>
    requires { start + piece.size < 2 ^ 32 }
    ensures { OnOk result (tokens.new.items ≡ tokens.old.items
        ++ option_to_list (option_map (λ kind. token_of at start kind piece.size) piece.kind)) }
{
    match piece.kind {
        Some(kind) => tokens.push(Token {
            kind,
            start: start as u32,
            stop: (start + piece.size) as u32,
            at,
        }),
        None => Ok(()),
    }
}

/// The place after a piece, where `at` is the place of its first byte. A token holds no newline.
fn passed(bytes: &[u8], start: usize, piece: Piece, at: Span) -> Span
    requires small { length bytes.now ≤ PROGRAM_BYTES }
    requires piece { IsPiece piece.kind (drop start bytes.now) piece.size }
    requires within { start + piece.size ≤ length bytes.now }
    requires here { at ≡ place_after (take start bytes.now) }
    ensures { result ≡ place_after (take (start + piece.size) bytes.now) }
{
    match piece.kind {
        Some(_) => Span {
            line: at.line,
            col: at.col + piece.size as u32,
        },
        None => advanced(bytes, start, start + piece.size, at),
    }
}

/// The tokens of a text, the last of which stands after its last byte, or the first fault of the
/// text. Only memory can be wanting besides.
pub fn lex(alloc: Global, bytes: &[u8]) -> Result<Vec<Token>, LexAnswer>
    requires { length bytes.now ≤ PROGRAM_BYTES }
    // The tokens that are given are the text's, and a fault that is given is its first.
    ensures tokens { IfOk result (λ tokens. AreTokens bytes.now tokens.items) }
    ensures fault { IfErr result (λ answer. (answer ≡ LexAnswer.OutOfMemory) ⊎ IsFirstFault bytes.now answer) }

    // Where the text has tokens, they are given, and where it has a fault, that fault is, unless
    // memory runs out.
    ensures given { (tokens : List Token) → AreTokens bytes.now tokens →
        MatchResult result (λ given. given.items ≡ tokens) (λ answer. answer ≡ LexAnswer.OutOfMemory) }
    ensures refused { (fault : LexAnswer) → IsFirstFault bytes.now fault →
        IsErrAnd result (λ answer. (answer ≡ LexAnswer.OutOfMemory) ⊎ (answer ≡ fault)) }
{
    scanned(alloc, bytes)
}

/// The tokens or the first fault, piece by piece.
fn scanned(alloc: Global, bytes: &[u8]) -> Result<Vec<Token>, LexAnswer>
    requires { length bytes.now ≤ PROGRAM_BYTES }
    ensures tokens { IfOk result (λ tokens. AreTokens bytes.now tokens.items) }
    ensures fault { IfErr result (λ answer. (answer ≡ LexAnswer.OutOfMemory) ⊎ IsFirstFault bytes.now answer) }
{
    let mut tokens = Vec::new(alloc);
    let mut at = Span { line: 1, col: 1 };
    let mut start = 0;
    while start < bytes.len() {
        let piece = piece_of(&bytes[start..], at)?;
        add(&mut tokens, piece, start, at)?;
        at = passed(bytes, start, piece, at);
        start += piece.size;
    }
    tokens.push(Token {
        kind: TokenKind::Last,
        start: start as u32,
        stop: start as u32,
        at,
    })?;
    Ok(tokens)
}
