//! The version of a flow file, and the lines that hold its flows.

ghost use Rattle.std.specs.Prelude.{◌≡◌, ◌≤◌, ◌<◌, ◌+◌, ◌^◌, ◌∷◌, ◌&&◌, length, bytes_eq, codes, is_none};
ghost use Rattle.sig_flow.specs.inner.Bodies.{StartsAs, body_behind};
ghost use Rattle.sig_flow.specs.Flows.{file_body, is_header, kind_named};
ghost use Rattle.sig_flow.specs.NextWords.{word_of, words_behind};
ghost use Rattle.sig_flow.specs.Words.{words_of};

use crate::line::next_line;
use crate::named::input_named;
use crate::version::Version;
use crate::word::{Next, next_word};
use sig_base::Signal;

/// The lines of a flow file that hold its flows, the number of the first of them, and the version.
#[derive(Clone, Copy)]
pub struct Body<'a> {
    pub version: Version,
    pub lines: &'a [u8],
    pub number: usize,
}

/// How a line begins a flow file: not at all, since it is blank, by the header of version 2, or by
/// the values of an input.
#[derive(Clone, Copy, PartialEq, Eq)]
enum Start {
    Blank,
    Header,
    Values,
}

/// The body of a flow file for these inputs.
pub fn body_of<'a>(bytes: &'a [u8], inputs: &[Signal]) -> Body<'a>
    ensures body { body_behind result ≡ file_body inputs.now bytes.now }
    ensures within { result.number + length result.lines.now ≤ length bytes.now + 1 }
{
    let mut rest = bytes;
    let mut number = 1;
    'lines: while !rest.is_empty() {
        let (line, after) = next_line(rest);
        match start_of(line, inputs) {
            Start::Blank => {}
            Start::Header => {
                return Body {
                    version: Version::Two,
                    lines: after,
                    number: number + 1,
                };
            }
            Start::Values => break 'lines,
        }
        rest = after;
        number += 1;
    }
    Body {
        version: Version::One,
        lines: rest,
        number,
    }
}

/// How this line begins a file.
fn start_of(line: &[u8], inputs: &[Signal]) -> Start
    ensures { StartsAs inputs.now (words_of line.now) result }
{
    match next_word(line, 1) {
        None => Start::Blank,
        Some(first) => {
            if is_header(first, inputs) {
                Start::Header
            } else {
                Start::Values
            }
        }
    }
}

/// Whether the words of a line, of which this is the first, are the header of version 2.
fn is_header(first: Next, inputs: &[Signal]) -> bool
    requires { first.col + length first.word.now + length first.rest.now < 2 ^ 64 }
    ensures { result ≡ is_header inputs.now (word_of first.entry ∷ words_behind first.entry) }
{
    let Some(second) = next_word(first.rest, first.col + first.word.len()) else {
        return false;
    };
    match next_word(second.rest, second.col + second.word.len()) {
        None => are_header(first.word, second.word) && has_no_flows(inputs),
        Some(_) => false,
    }
}

/// Whether two words are those of the header.
fn are_header(first: &[u8], second: &[u8]) -> bool
    ensures { result ≡ (bytes_eq first.now (codes "flows") && bytes_eq second.now (codes "2")) }
{
    first == b"flows".as_slice() && second == b"2".as_slice()
}

/// Whether no input is named `flows`.
fn has_no_flows(inputs: &[Signal]) -> bool
    ensures { result ≡ is_none (kind_named inputs.now (codes "flows")) }
{
    match input_named(inputs, b"flows") {
        Some(_) => false,
        None => true,
    }
}
