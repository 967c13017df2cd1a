//! What is asked of diagrams in a store and of a program's kernel.

ghost use Rattle.std.specs.Prelude.{◌≤◌, All, IfOk, length};
ghost use Rattle.sig_dd.specs.Nodes.{Holds};
ghost use Rattle.sig_kernel.specs.Validity.{IsValid};

use super::clocks::{write_clocks, write_paced};
use super::diagrams::{made, write_told};
use super::names::{NAMES, write_names};
use super::relations::{write_relation, write_system};
use anyhow::{Result, bail};
use sig_clock::{condition_set, same_clock};
use sig_dd::{Ref, Store};
use sig_kernel::Kernel;
use sig_rel::triangle;
use sig_rows_base::kernel_of;
use std::alloc::{AllocError, Global};
use std::fmt::Write;

/// Adds the answer of a row about functions in a store, or about a program's kernel with it. A function that is made
/// is added to these.
pub fn write_clock_row(
    alloc: Global,
    out: &mut String,
    store: &mut Store,
    refs: &mut Vec<Ref>,
    program: &[u8],
    words: &str,
) -> Result<()>
    requires { All (λ f. Holds store.old.nodes f) refs.old.items }
    ensures { All (λ f. Holds store.new.nodes f) refs.new.items }
{
    let (what, text) = words.split_once(' ').unwrap_or((words, ""));
    let numbers = numbers_in(alloc, text)?;
    let held = held_in(alloc, store, refs.as_slice(), text)?;
    write_asked(
        alloc,
        out,
        store,
        refs,
        program,
        what,
        held.as_slice(),
        numbers.as_slice(),
    )
}

/// The numbers among words.
fn numbers_in(alloc: Global, text: &str) -> Result<Vec<u32>, AllocError> {
    let mut numbers = Vec::new(alloc);
    for word in text.split_whitespace() {
        if let Ok(number) = word.parse::<u32>() {
            numbers.push(number)?;
        }
    }
    Ok(numbers)
}

/// The functions that words name.
fn held_in(alloc: Global, store: &Store, refs: &[Ref], text: &str) -> Result<Vec<Ref>, AllocError>
    requires { All (λ f. Holds store.now.nodes f) refs.now }
    ensures { IfOk result (λ held. All (λ f. Holds store.now.nodes f) held.items) }
{
    let mut held = Vec::new(alloc);
    for word in text.split_whitespace() {
        if let Some(f) = NAMES.find(word).and_then(|place| refs.get(place)) {
            held.push(*f)?;
        }
    }
    Ok(held)
}

/// Adds the function that is made, or what else is asked.
fn write_asked(
    alloc: Global,
    out: &mut String,
    store: &mut Store,
    refs: &mut Vec<Ref>,
    program: &[u8],
    what: &str,
    held: &[Ref],
    numbers: &[u32],
) -> Result<()>
    requires held { All (λ f. Holds store.old.nodes f) held.now }
    requires made { All (λ f. Holds store.old.nodes f) refs.old.items }
    ensures { All (λ f. Holds store.new.nodes f) refs.new.items }
{
    match made(store, what, held, numbers) {
        Some(Ok(f)) => {
            if !refs.contains(&f) {
                refs.push(f)?;
            }
            Ok(write_names(out, refs, &[f])?)
        }
        Some(Err(answer)) => Ok(write!(out, "{answer:?}")?),
        None if program.is_empty() => write_told(out, store, what, held, numbers),
        None => write_told_of(alloc, out, store, refs, program, what, numbers),
    }
}

/// Adds what is asked of a program's kernel.
fn write_told_of(
    alloc: Global,
    out: &mut String,
    store: &mut Store,
    refs: &[Ref],
    program: &[u8],
    what: &str,
    numbers: &[u32],
) -> Result<()>
    ensures { length store.old.nodes ≤ length store.new.nodes }
{
    let kernel = kernel_of(alloc, program)?;
    if what == "pace" {
        write_paced(alloc, out, kernel, store)
    } else {
        write_told_with(alloc, out, store, refs, &kernel, what, numbers)
    }
}

/// Adds what is asked of a kernel.
fn write_told_with(
    alloc: Global,
    out: &mut String,
    store: &mut Store,
    refs: &[Ref],
    kernel: &Kernel,
    what: &str,
    numbers: &[u32],
) -> Result<()>
    requires { IsValid kernel.now }
    ensures { length store.old.nodes ≤ length store.new.nodes }
{
    match (what, numbers) {
        ("classes", _) => Ok(write!(out, "{:?}", same_clock(alloc, kernel))?),
        ("conditions", _) => Ok(write!(out, "{:?}", condition_set(alloc, kernel))?),
        ("triangle", [first]) => write_triangle(alloc, out, kernel, *first as usize),
        ("relation", [first, limit]) => {
            write_relation(alloc, out, kernel, store, *first, *limit, false)
        }
        ("unknowns", [first, limit]) => {
            write_relation(alloc, out, kernel, store, *first, *limit, true)
        }
        ("free", _) => write_system(alloc, out, kernel, store, refs, true),
        ("cut", _) => write_system(alloc, out, kernel, store, refs, false),
        ("clocks", _) => write_clocks(alloc, out, kernel, store, false),
        ("hierarchy", _) => write_clocks(alloc, out, kernel, store, true),
        _ => bail!("there is no such question"),
    }
}

/// Adds how many classes a triangular kernel has, and so many first ones.
fn write_triangle(alloc: Global, out: &mut String, kernel: &Kernel, first: usize) -> Result<()>
    requires { IsValid kernel.now }
{
    match triangle(alloc, kernel)? {
        Some(classes) => write_first(out, classes.as_slice(), first),
        None => out.push_str("none"),
    }?;
    Ok(())
}

fn write_first(out: &mut String, classes: &[u32], first: usize) -> Result<(), AllocError> {
    write!(out, "{} {:?}", classes.len(), classes.get(..first))
}
