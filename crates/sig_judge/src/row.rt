//! The instants of a trace file.

ghost use Rattle.std.specs.Prelude.{◌≡◌, ◌<◌, ◌≤◌, ◌+◌, ◌++◌, ◌^◌, ◌⊎◌};
ghost use Rattle.sig_judge.specs.Prelude.{None, Some, Ok, Err, IfOk, IfErr, MatchResult, OnOk, flat_map, length, map, option_to_list, slice_index_or, lines, AllGood, IsFirst, numbered, words_from, words_of};
ghost use Rattle.sig_judge.specs.inner.Headers.{instants_in};
ghost use Rattle.sig_judge.specs.Rows.{seen_of};
ghost use Rattle.sig_judge.specs.TraceFiles.{cell_fault, cell_said, cells_fault, cells_said, row_judge, seen_said, text_fault};
ghost use Rattle.sig_judge.specs.declared.trace_answer.TraceAnswer.TheVariants.{OutOfMemory};

use crate::header::Header;
use crate::trace::{Row, Seen};
use crate::trace_answer::TraceAnswer;
use sig_base::Kind;
use sig_base::limits::VALUES;
use sig_flow::{WordFault, is_clean, next_line, next_word, value_of};
use std::alloc::{AllocFailed, Global};

/// The instants of the lines behind a header, of which the first has this number.
pub fn rows_of(
    alloc: Global,
    bytes: &[u8],
    number: usize,
    header: &Header,
) -> Result<Vec<Row>, TraceAnswer>
    requires lines { number + length bytes.now < 2 ^ 64 }
    ensures good { OnOk result (AllGood (row_judge header.now.kinds.items) 0 (numbered number (lines bytes.now))) }
    ensures rows { IfOk result (λ rows. rows.items
        ≡ flat_map (λ line. instants_in header.now (words_of line.text)) (numbered number (lines bytes.now))) }
    ensures few { IfOk result (λ rows. length rows.items ≤ VALUES) }
    ensures fault { IfErr result (λ answer. (answer ≡ OutOfMemory)
        ⊎ IsFirst (row_judge header.now.kinds.items) 0 (numbered number (lines bytes.now)) answer) }
{
    let mut rows = Vec::new(alloc);
    let mut rest = bytes;
    let mut line_number = number;
    let mut before = 0;
    while !rest.is_empty() {
        let (line, after) = next_line(rest);
        let place = Place {
            number: line_number,
            before,
        };
        let read = row_in(alloc, line, place, header)?;
        keep(&mut rows, read.row)?;
        before += read.words;
        rest = after;
        line_number += 1;
    }
    Ok(rows)
}

/// Appends an instant, where there is one.
fn keep(rows: &mut Vec<Row>, row: Option<Row>) -> Result<(), AllocFailed<Row>>
    ensures { OnOk result (rows.new.items ≡ rows.old.items ++ option_to_list row) }
{
    match row {
        Some(row) => rows.push(row),
        None => Ok(()),
    }
}

/// Where a line stands: as the line of this number, behind so many words of instants.
#[derive(Clone, Copy)]
struct Place {
    number: usize,
    before: usize,
}

/// The instant that a line is, or none of a line without words, and the number of its words.
#[derive(Debug, Drop)]
struct Read {
    row: Option<Row>,
    words: usize,
}

/// What a line says.
fn row_in(alloc: Global, line: &[u8], place: Place, header: &Header) -> Result<Read, TraceAnswer>
    requires few { place.before ≤ VALUES }
    ensures good { OnOk result (text_fault place.number place.before header.now.kinds.items line.now ≡ None) }
    ensures row { IfOk result (λ read. option_to_list read.row ≡ instants_in header.now (words_of line.now)) }
    ensures words { IfOk result (λ read. read.words ≡ length (words_of line.now)) }
    ensures few { IfOk result (λ read. place.before + read.words ≤ VALUES) }
    ensures worded { IfOk result (λ read. length (option_to_list read.row) ≤ read.words) }
    ensures fault { IfErr result (λ answer. (answer ≡ OutOfMemory)
        ⊎ (text_fault place.number place.before header.now.kinds.items line.now ≡ Some answer)) }
{
    if !is_clean(line) {
        return Err(TraceAnswer::BadLine(place.number));
    }
    let words = word_count(line);
    if words == 0 {
        return Ok(Read { row: None, words });
    }
    if words != header.kinds.len() {
        return Err(TraceAnswer::BadWidth(place.number));
    }
    let cells = cells_in(alloc, line, place, &header.kinds)?;
    let row = arranged(alloc, &cells, &header.columns)?;
    Ok(Read {
        row: Some(row),
        words,
    })
}

/// The number of words of a line.
fn word_count(line: &[u8]) -> usize
    ensures { result ≡ length (words_of line.now) }
{
    let mut count = 0;
    let mut rest = line;
    let mut col = 1;
    while let Some(next) = next_word(rest, col) {
        count += 1;
        col = next.col + next.word.len();
        rest = next.rest;
    }
    count
}

/// What the words of a line say, of which there is one for a signal of each of these kinds.
fn cells_in(
    alloc: Global,
    line: &[u8],
    place: Place,
    kinds: &[Kind],
) -> Result<Vec<Seen>, TraceAnswer>
    requires few { place.before ≤ VALUES }
    requires width { length (words_of line.now) ≡ length kinds.now }
    ensures good { OnOk result (cells_fault place.number place.before kinds.now (words_of line.now) ≡ None) }
    ensures cells { IfOk result (λ cells. map seen_of cells.items ≡ cells_said kinds.now (words_of line.now)) }
    ensures few { OnOk result (place.before + length (words_of line.now) ≤ VALUES) }
    ensures fault { IfErr result (λ answer. (answer ≡ OutOfMemory)
        ⊎ (cells_fault place.number place.before kinds.now (words_of line.now) ≡ Some answer)) }
{
    let mut cells = Vec::new(alloc);
    let mut rest = line;
    let mut col = 1;
    while let Some(next) = next_word(rest, col) {
        let here = Place {
            number: place.number,
            before: place.before + cells.len(),
        };
        cells.push(cell_in(next.word, next.col, here, kinds[cells.len()])?)?;
        col = next.col + next.word.len();
        rest = next.rest;
    }
    Ok(cells)
}

/// What a word says of a signal of a kind.
fn cell_in(word: &[u8], col: usize, place: Place, kind: Kind) -> Result<Seen, TraceAnswer>
    ensures { MatchResult result
        (λ seen. (cell_fault place.number place.before col (cell_said kind word.now) ≡ None)
        × (seen_said (cell_said kind word.now) ≡ seen_of seen) × (place.before < VALUES))
        (λ answer. cell_fault place.number place.before col (cell_said kind word.now) ≡ Some answer) }
{
    match cell_of(word, kind) {
        Ok(seen) if place.before < VALUES => Ok(seen),
        Ok(_) => Err(TraceAnswer::TooMany(VALUES)),
        Err(WordFault::Bad) => Err(TraceAnswer::BadValue(place.number, col)),
        Err(WordFault::Outside) => Err(TraceAnswer::OutOfRange(place.number, col)),
    }
}

/// What a word says of a signal of a kind: absent, or a value.
fn cell_of(word: &[u8], kind: Kind) -> Result<Seen, WordFault>
    ensures { MatchResult result
        (λ seen. cell_said kind word.now ≡ Ok (seen_of seen))
        (λ fault. cell_said kind word.now ≡ Err fault) }
{
    if word == b".".as_slice() {
        return Ok(Seen::Absent);
    }
    match value_of(word, kind) {
        Ok(value) => Ok(Seen::Value(value)),
        Err(fault) => Err(fault),
    }
}

/// The cells in the order of the signals, whose places these are.
fn arranged(alloc: Global, cells: &[Seen], columns: &[usize]) -> Result<Row, AllocFailed<Seen>>
    ensures { IfOk result (λ row. row ≡ map (λ column. slice_index_or (map seen_of cells.now) column None) columns.now) }
{
    let mut seen = Vec::new(alloc);
    for column in columns {
        seen.push(cell_at(cells, *column))?;
    }
    Ok(Row::from(seen))
}

/// The cell at a place; past the last nothing is present.
fn cell_at(cells: &[Seen], column: usize) -> Seen
    ensures { seen_of result ≡ slice_index_or (map seen_of cells.now) column None }
{
    if column < cells.len() {
        cells[column]
    } else {
        Seen::Absent
    }
}
