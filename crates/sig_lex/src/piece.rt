//! Pieces: what a text begins with.

ghost use Rattle.std.specs.Prelude.{◌≡◌, ◌+◌, ◌<◌, ◌≤◌, ◌^◌, ◌↔◌};
ghost use Rattle.sig_lex.specs.Prelude.{ℕ, length, take, IfOk, IfErr, IsTrue, true, AllPass, SomeIff, is_ascii_alphabetic, is_ascii_digit, digits_value};
ghost use Rattle.sig_lex.specs.Bytes.{first, is_percent, is_quote};
ghost use Rattle.sig_lex.specs.Tables.{IsMark};
ghost use Rattle.sig_lex.specs.Tokens.{IsPiece, BeginsWithFault, IsOther, greatest_number};

use crate::answer::LexAnswer;
use crate::run::{digit_run, label_run, name_run};
use crate::table::{is_mark, is_word};
use crate::token::TokenKind;
use memchr::memchr;
use sig_base::Span;

/// The greatest value of a number.
const GREATEST: u64 = 9_223_372_036_854_775_807;

/// What stands at the front of a text, a token of a kind or, with none, a blank or a comment, and of
/// how many bytes it is.
#[derive(Clone, Copy)]
pub struct Piece {
    pub kind: Option<TokenKind>,
    pub size: usize,
}

impl Piece {
    fn token(kind: TokenKind, size: usize) -> Piece
        ensures kind { result.kind ≡ Some kind }
        ensures size { result.size ≡ size }
    {
        Piece {
            kind: Some(kind),
            size,
        }
    }
}

/// The piece with which these bytes begin, or the fault, where `at` is the place of the first byte.
pub fn piece_of(bytes: &[u8], at: Span) -> Result<Piece, LexAnswer>
    requires { 0 < length bytes.now }
    ensures piece { IfOk result (λ piece. IsPiece piece.kind bytes.now piece.size) }
    ensures some { IfOk result (λ piece. 0 < piece.size) }
    ensures within { IfOk result (λ piece. piece.size ≤ length bytes.now) }
    ensures fault { IfErr result (λ fault. BeginsWithFault fault at bytes.now) }
{
    match bytes[0] {
        b' ' | b'\t' | b'\r' | b'\n' => Ok(Piece {
            kind: None,
            size: 1,
        }),
        b'%' => comment(bytes, at),
        b'a'..=b'z' | b'A'..=b'Z' => Ok(name(bytes)),
        b'0'..=b'9' => number(bytes, at),
        b'"' => label(bytes, at),
        _ => mark(bytes, at),
    }
}

/// A comment: all bytes up to the next `%`, and that one.
fn comment(bytes: &[u8], at: Span) -> Result<Piece, LexAnswer>
    requires opened { is_percent (first bytes.now) ≡ true }
    requires there { 0 < length bytes.now }
    ensures piece { IfOk result (λ piece. IsPiece piece.kind bytes.now piece.size) }
    ensures some { IfOk result (λ piece. 0 < piece.size) }
    ensures within { IfOk result (λ piece. piece.size ≤ length bytes.now) }
    ensures fault { IfErr result (λ fault. BeginsWithFault fault at bytes.now) }
{
    match memchr(b'%', &bytes[1..]) {
        Some(inside) => Ok(Piece {
            kind: None,
            size: inside + 2,
        }),
        None => Err(LexAnswer::OpenComment(at)),
    }
}

/// A name or a reserved word.
fn name(bytes: &[u8]) -> Piece
    requires { is_ascii_alphabetic (first bytes.now) ≡ true }
    ensures piece { IsPiece result.kind bytes.now result.size }
    ensures some { 0 < result.size }
    ensures within { result.size ≤ length bytes.now }
{
    let size = name_run(bytes);
    if is_word(&bytes[..size]) {
        Piece::token(TokenKind::Word, size)
    } else {
        Piece::token(TokenKind::Name, size)
    }
}

/// A number.
fn number(bytes: &[u8], at: Span) -> Result<Piece, LexAnswer>
    requires { is_ascii_digit (first bytes.now) ≡ true }
    ensures piece { IfOk result (λ piece. IsPiece piece.kind bytes.now piece.size) }
    ensures some { IfOk result (λ piece. 0 < piece.size) }
    ensures within { IfOk result (λ piece. piece.size ≤ length bytes.now) }
    ensures fault { IfErr result (λ fault. BeginsWithFault fault at bytes.now) }
{
    let size = digit_run(bytes);
    match value_of(&bytes[..size]) {
        Some(value) => Ok(Piece::token(TokenKind::Number(value), size)),
        None => Err(LexAnswer::LongNumber(at)),
    }
}

/// The value of these digits, where it is not above the greatest.
fn value_of(digits: &[u8]) -> Option<u64>
    requires some { 0 < length digits.now }
    requires digits { AllPass is_ascii_digit digits.now }
    ensures { SomeIff result (digits_value 10 digits.now ≤ greatest_number) (digits_value 10 digits.now) }
{
    let text = str::from_utf8(digits).ok()?;
    let value = u64::from_str_radix(text, 10).ok()?;
    (value <= GREATEST).then_some(value)
}

/// A label.
fn label(bytes: &[u8], at: Span) -> Result<Piece, LexAnswer>
    requires opened { is_quote (first bytes.now) ≡ true }
    requires there { 0 < length bytes.now }
    ensures piece { IfOk result (λ piece. IsPiece piece.kind bytes.now piece.size) }
    ensures some { IfOk result (λ piece. 0 < piece.size) }
    ensures within { IfOk result (λ piece. piece.size ≤ length bytes.now) }
    ensures fault { IfErr result (λ fault. BeginsWithFault fault at bytes.now) }
{
    let inside = label_run(&bytes[1..]);
    if inside + 1 < bytes.len() && bytes[inside + 1] == b'"' {
        Ok(Piece::token(TokenKind::Label, inside + 2))
    } else {
        Err(LexAnswer::BadByte(at))
    }
}

/// The longest mark.
fn mark(bytes: &[u8], at: Span) -> Result<Piece, LexAnswer>
    requires { IsOther bytes.now }
    ensures piece { IfOk result (λ piece. IsPiece piece.kind bytes.now piece.size) }
    ensures some { IfOk result (λ piece. 0 < piece.size) }
    ensures within { IfOk result (λ piece. piece.size ≤ length bytes.now) }
    ensures fault { IfErr result (λ fault. BeginsWithFault fault at bytes.now) }
{
    if begins_with_mark(bytes, 2) {
        Ok(Piece::token(TokenKind::Mark, 2))
    } else if begins_with_mark(bytes, 1) {
        Ok(Piece::token(TokenKind::Mark, 1))
    } else {
        Err(LexAnswer::BadByte(at))
    }
}

/// Whether there are so many bytes, and the first so many are a mark.
fn begins_with_mark(bytes: &[u8], size: usize) -> bool
    ensures { IsTrue result ↔ ((size ≤ length bytes.now) × IsMark (take size bytes.now)) }
{
    size <= bytes.len() && is_mark(&bytes[..size])
}
