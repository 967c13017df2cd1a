//! The header of a trace file.

ghost use Rattle.std.specs.Prelude.{◌≡◌, ◌≤◌, ◌+◌, ◌^◌, ◌<◌, ◌⊎◌};
ghost use Rattle.sig_judge.specs.Prelude.{ℕ, None, Some, IfOk, IfErr, IfNone, IfSome, OnOk, bytes_eq, length, map, slice_index_or, vec_len, IsDistinct, lines_of, words_of};
ghost use Rattle.sig_judge.specs.inner.Headers.{IsHeaderOf, Named, body_behind, header_line};
ghost use Rattle.sig_judge.specs.TraceFiles.{body_of, header_fault, names_in};
ghost use Rattle.sig_judge.specs.declared.trace_answer.TraceAnswer.TheVariants.{OutOfMemory};

use crate::trace_answer::TraceAnswer;
use sig_base::{Kind, Signal};
use sig_flow::{input_named, is_clean, next_line, next_word};
use std::alloc::{AllocFailed, Global};

/// The first line with words of a file, its number, and the lines behind it.
#[derive(Clone, Copy)]
pub struct Start<'a> {
    pub line: &'a [u8],
    pub number: usize,
    pub rest: &'a [u8],
}

/// The first line with words.
pub fn first_line(bytes: &[u8]) -> Option<Start>
    ensures none { IfNone result (body_of (lines_of bytes.now) ≡ None) }
    ensures some { IfSome result (λ start. body_of (lines_of bytes.now) ≡ Some (body_behind start)) }
    ensures within { IfSome result (λ start. start.number + length start.rest.now ≤ length bytes.now) }
{
    let mut rest = bytes;
    let mut number = 1;
    while !rest.is_empty() {
        let (line, after) = next_line(rest);
        if next_word(line, 1).is_some() {
            return Some(Start {
                line,
                number,
                rest: after,
            });
        }
        rest = after;
        number += 1;
    }
    None
}

/// What a header says: the kinds of its words' signals, and the place of each signal's word.
#[derive(Debug, Drop)]
pub struct Header {
    pub kinds: Vec<Kind>,
    pub columns: Vec<usize>,
}

/// The header that a line is: it names each signal exactly once.
pub fn header_of(alloc: Global, start: Start, signals: &[Signal]) -> Result<Header, TraceAnswer>
    requires differ { IsDistinct bytes_eq (map (λ signal. signal.name) signals.now) }
    ensures good { OnOk result (header_fault signals.now (header_line start.entry) ≡ None) }
    ensures header { IfOk result (IsHeaderOf signals.now (names_in (header_line start.entry))) }
    ensures fault { IfErr result (λ answer. (answer ≡ OutOfMemory)
        ⊎ (header_fault signals.now (header_line start.entry) ≡ Some answer)) }
{
    if !is_clean(start.line) {
        return Err(TraceAnswer::BadLine(start.number));
    }
    let mut kinds = Vec::new(alloc);
    let mut places = no_places(alloc, signals.len())?;
    let mut rest = start.line;
    let mut col = 1;
    while let Some(next) = next_word(rest, col) {
        let Some(i) = input_named(signals, next.word) else {
            return Err(TraceAnswer::BadHeader(start.number));
        };
        if places[i].is_some() {
            return Err(TraceAnswer::BadHeader(start.number));
        }
        places[i] = Some(kinds.len());
        kinds.push(signals[i].kind)?;
        col = next.col + next.word.len();
        rest = next.rest;
    }
    match columns_of(alloc, &places)? {
        Some(columns) => Ok(Header { kinds, columns }),
        None => Err(TraceAnswer::BadHeader(start.number)),
    }
}

/// No place for so many signals.
fn no_places(alloc: Global, count: usize) -> Result<Vec<Option<usize>>, AllocFailed<Option<usize>>>
    ensures count { IfOk result (λ places. vec_len places ≡ count) }
    ensures none { IfOk result (λ places. (k : ℕ) → slice_index_or places.items k None ≡ None) }
{
    let mut places = Vec::new(alloc);
    for _ in 0..count {
        places.push(None)?;
    }
    Ok(places)
}

/// The places, where none is missing.
fn columns_of(
    alloc: Global,
    places: &[Option<usize>],
) -> Result<Option<Vec<usize>>, AllocFailed<usize>>
    ensures some { IfOk result (λ columns. IfSome columns (λ columns. map Some columns.items ≡ places.now)) }
    ensures none { IfOk result (λ columns. IfNone columns ((k : ℕ) × (k < length places.now) × (slice_index_or places.now k None ≡ None))) }
{
    let mut columns = Vec::new(alloc);
    for place in places {
        match place {
            Some(column) => columns.push(*column)?,
            None => return Ok(None),
        }
    }
    Ok(Some(columns))
}
