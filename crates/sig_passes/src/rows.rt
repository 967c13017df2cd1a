//! The rows of row files, which tests/rows/README.md describes.

ghost use Rattle.std.specs.Prelude.{All, IfOk};
ghost use Rattle.sig_dd.specs.Nodes.{Holds};

use super::answer::answer;
use anyhow::{Context, Result};
use sig_dd::{Ref, Store};
use sig_rows_base::bytes_of;
use std::alloc::{AllocError, Global};
use std::fs;
use std::io::Print;
use std::process::ExitCode;
use std::rt::Files;

/// How many rows had the wanted answer, and how many another one.
#[derive(Clone, Copy)]
struct Count {
    passed: u32,
    failed: u32,
}

/// Asks for each row of these files, and tells the rows that fail.
pub(crate) fn check_files<R: Print + Files + AllocGlobal>(
    rt: &R,
    paths: &[String],
) -> Result<ExitCode> {
    let mut count = Count {
        passed: 0,
        failed: 0,
    };
    for path in paths {
        let text = fs::read_to_string(rt, path.as_str())?;
        count = check(rt, path, &text, count)?;
    }
    println!(rt; "{} passed, {} failed", count.passed, count.failed)?;
    Ok(ExitCode::from(u8::from(count.failed > 0)))
}

/// Asks for each row of a text.
fn check<R: Print + AllocGlobal>(rt: &R, name: &str, text: &str, count: Count) -> Result<Count> {
    let alloc = rt.alloc();
    let mut store = Store::new(alloc, 0)?;
    let mut refs = Vec::new(alloc);
    let mut program = Vec::new(alloc);
    check_lines(rt, name, text, &mut store, &mut refs, &mut program, count)
}

/// Asks for each row of a text, with these for the store, its functions and the program of the rows so far.
fn check_lines<R: Print + AllocGlobal>(
    rt: &R,
    name: &str,
    text: &str,
    store: &mut Store,
    refs: &mut Vec<Ref>,
    program: &mut Vec<u8>,
    mut count: Count,
) -> Result<Count>
    requires { All (λ f. Holds store.old.nodes f) refs.old.items }
{
    let alloc = rt.alloc();
    for (number, line) in text.lines().enumerate() {
        if line.is_empty() || line.starts_with('%') {
            continue;
        }
        if line.starts_with("process ") || line.starts_with("\\nprocess ") {
            *program = bytes_of(alloc, line)?;
        } else if let Some(nodes) = line.strip_prefix("store ") {
            *store = Store::new(alloc, nodes.parse::<u32>()?)?;
            *refs = constants(alloc, store)?;
        } else {
            count = check_row(rt, (name, number), line, store, refs, program, count)?;
        }
    }
    Ok(count)
}

/// Asks for a row.
fn check_row<R: Print + AllocGlobal>(
    rt: &R,
    place: (&str, usize),
    line: &str,
    store: &mut Store,
    refs: &mut Vec<Ref>,
    program: &[u8],
    count: Count,
) -> Result<Count>
    requires { All (λ f. Holds store.old.nodes f) refs.old.items }
    ensures { All (λ f. Holds store.new.nodes f) refs.new.items }
{
    let (words, wanted) = line.split_once(": ").context("a row has no answer")?;
    let found = match answer(rt.alloc(), store, refs, program, words) {
        Ok(found) => found,
        Err(error) => format!(in rt.alloc(); "{error:?}")?,
    };
    compare(rt, place, words, wanted, &found, count)
}

/// The two constants.
fn constants(alloc: Global, store: &Store) -> Result<Vec<Ref>, AllocError>
    ensures { IfOk result (λ refs. All (λ f. Holds store.now.nodes f) refs.items) }
{
    let mut refs = Vec::new(alloc);
    refs.push(store.constant(false))?;
    refs.push(store.constant(true))?;
    Ok(refs)
}

/// Compares an answer with the wanted one, and tells where it is another.
fn compare<R: Print + AllocGlobal>(
    rt: &R,
    (name, number): (&str, usize),
    words: &str,
    wanted: &str,
    found: &str,
    mut count: Count,
) -> Result<Count> {
    if bytes_of(rt.alloc(), wanted)?.as_slice() == found.as_bytes() {
        count.passed = count.passed.wrapping_add(1);
    } else {
        count.failed = count.failed.wrapping_add(1);
        let line = number.wrapping_add(1);
        println!(rt; "{name}:{line}: {words}\n  wanted {wanted}\n  found {found:?}")?;
    }
    Ok(count)
}
