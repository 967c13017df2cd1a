//! The relations and the systems of kernels.

ghost use Rattle.std.specs.Prelude.{◌≤◌, length};
ghost use Rattle.sig_dd.specs.Nodes.{Holds};
ghost use Rattle.sig_kernel.specs.Validity.{IsValid};

use super::names::write_names;
use super::values::is_true_at;
use anyhow::{Context, Result};
use sig_clock::condition_set;
use sig_dd::{DdAnswer, Ref, Store};
use sig_kernel::Kernel;
use sig_rel::{RelAnswer, Relation, System, free_system, relation, system};
use std::alloc::{AllocError, Global};
use std::fmt::Write;

/// Adds the numbers below a limit whose truths make the function true; of more than eight how many there are, and
/// their checksum.
fn write_numbers(
    alloc: Global,
    out: &mut String,
    store: &Store,
    f: Ref,
    first: u32,
    limit: u32,
) -> Result<(), DdAnswer>
    requires { Holds store.now.nodes f }
{
    let mut numbers = Vec::new(alloc);
    for number in 0..limit {
        if is_true_at(alloc, store, f, first, number)? {
            numbers.push(number)?;
        }
    }
    Ok(write_summed(out, numbers.as_slice())?)
}

fn write_summed(out: &mut String, numbers: &[u32]) -> Result<(), AllocError> {
    if numbers.len() <= 8 {
        return write!(out, "{numbers:?}");
    }
    let mut sum: u64 = 0;
    for number in numbers {
        sum = sum.wrapping_mul(31).wrapping_add(u64::from(*number));
    }
    write!(out, "{} {sum}", numbers.len())
}

/// Adds the numbers below a limit whose truths the kernel's relation holds of, behind those of so many variables, and
/// the unknowns of the signals where they are asked for.
pub(crate) fn write_relation(
    alloc: Global,
    out: &mut String,
    kernel: &Kernel,
    store: &mut Store,
    first: u32,
    limit: u32,
    with_unknowns: bool,
) -> Result<()>
    requires { IsValid kernel.now }
    ensures { length store.old.nodes ≤ length store.new.nodes }
{
    match relation(alloc, kernel, store) {
        Ok(found) => {
            write_numbers(alloc, out, store, found.whole, first, limit)?;
            if with_unknowns {
                write_unknowns(out, &found)?;
            }
            Ok(())
        }
        Err(answer) => Ok(write!(out, "{answer:?}")?),
    }
}

fn write_unknowns(out: &mut String, found: &Relation) -> Result<(), AllocError> {
    write!(out, " {:?} {:?}", found.present, found.truth)
}

/// The system of a kernel by cuts, or without them; nothing where it has none without cuts.
fn system_of(
    alloc: Global,
    kernel: &Kernel,
    store: &mut Store,
    is_free: bool,
) -> Result<Option<System>, RelAnswer>
    requires { IsValid kernel.now }
    ensures { length store.old.nodes ≤ length store.new.nodes }
{
    let conditions = condition_set(alloc, kernel)?;
    if is_free {
        free_system(alloc, kernel, conditions.as_slice(), store)
    } else {
        Ok(Some(system(alloc, kernel, conditions.as_slice(), store)?))
    }
}

/// Adds the system of a kernel by cuts, or without them.
pub(crate) fn write_system(
    alloc: Global,
    out: &mut String,
    kernel: &Kernel,
    store: &mut Store,
    refs: &[Ref],
    is_free: bool,
) -> Result<()>
    requires { IsValid kernel.now }
    ensures { length store.old.nodes ≤ length store.new.nodes }
{
    let found = system_of(alloc, kernel, store, is_free)?.context("not free")?;
    Ok(write_parts(out, refs, &found)?)
}

/// Adds the presences, the truths, what is left to be met and where something is present, by names; the first
/// variable, how many there are, and the proposals.
fn write_parts(out: &mut String, refs: &[Ref], found: &System) -> Result<(), AllocError> {
    let parts: [&[Ref]; 4] = [
        found.present.as_slice(),
        found.truth.as_slice(),
        &[found.residue],
        &[found.speaks],
    ];
    for part in parts {
        write_names(out, refs, part)?;
        out.push(' ')?;
    }
    write!(
        out,
        "{} {} {:?}",
        found.first, found.variables, found.proposals
    )
}
