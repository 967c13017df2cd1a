//! The sections of clocks and of the order of operations.

ghost use Rattle.std.specs.Prelude.{◌≡◌, ℕ, Some, slice_get};
ghost use Rattle.sig_clock.specs.Clocks.{AreClocks};
ghost use Rattle.sig_dd.specs.Nodes.{Holds, IsStore};
ghost use Rattle.sig_dd.specs.declared.node.Ref.{Ref};
ghost use Rattle.sig_kernel.specs.Validity.{IsValid};

use super::sections::{push_numbers, push_signals};
use anyhow::Result;
use sig_base::OpId;
use sig_base::limits::NODES;
use sig_clock::Clocks;
use sig_dd::{DdAnswer, Ref, Store};
use sig_graph::order;
use sig_kernel::Kernel;
use sig_plan::operations;
use sig_rows_clocks::is_true_at;
use sig_solve::solve;
use std::alloc::{AllocError, Global};
use std::fmt::Write;

/// Adds the clocks and the order of the operations, and the title of the section behind them, as far as there are some:
/// the line of a refusal is still to come.
pub(crate) fn push_solution(alloc: Global, out: &mut String, kernel: &Kernel) -> Result<()>
    requires { IsValid kernel.now }
{
    out.push_str("== clocks\n")?;
    let mut store = Store::new(alloc, NODES)?;
    match solve(alloc, kernel, &mut store) {
        Ok(clocks) => push_ordered(alloc, out, kernel, &clocks, &mut store),
        Err(_) => Ok(()),
    }
}

/// Adds the clocks with their guards, and the order of the operations where there is one.
fn push_ordered(
    alloc: Global,
    out: &mut String,
    kernel: &Kernel,
    clocks: &Clocks,
    store: &mut Store,
) -> Result<()>
    requires valid { IsValid kernel.now }
    requires store { IsStore store.old }
    requires clocks { AreClocks kernel.now store.old.nodes clocks.now }
{
    push_classes(alloc, out, clocks)?;
    push_guards(out, clocks, store)?;
    out.push_str("== order\n")?;
    let ops = operations(alloc, kernel, clocks, store)?;
    if let Ok(order) = order(alloc, kernel, ops.as_slice(), clocks, store) {
        push_order(alloc, out, order.as_slice())?;
    }
    Ok(())
}

/// Adds the classes of the signals, the layers of the classes, and the conditions.
fn push_classes(alloc: Global, out: &mut String, clocks: &Clocks) -> Result<(), AllocError> {
    push_numbers(out, "class_of", clocks.class_of.as_slice())?;
    push_numbers(out, "layer", clocks.layer.as_slice())?;
    push_signals(alloc, out, "conditions", clocks.conditions.as_slice())
}

/// Adds the numbers of operations, and the title of the section behind them.
fn push_order(alloc: Global, out: &mut String, order: &[OpId]) -> Result<(), AllocError> {
    let numbers: Vec<u32> = order.iter().map(|op| op.0).collect(alloc)?;
    push_numbers(out, "", numbers.as_slice())?;
    out.push_str("== code\n")
}

/// Adds two lines for each guard.
fn push_guards(out: &mut String, clocks: &Clocks, store: &Store) -> Result<(), DdAnswer>
    requires { (number : ℕ) (guard : Ref) → slice_get clocks.now.guard number ≡ Some guard → Holds store.now.nodes guard }
{
    for class in 0..clocks.guard.len() {
        push_guard_of(out, clocks, store, class)?;
    }
    Ok(())
}

/// Adds the lines of the guard of a class.
fn push_guard_of(
    out: &mut String,
    clocks: &Clocks,
    store: &Store,
    class: usize,
) -> Result<(), DdAnswer>
    requires { (number : ℕ) (guard : Ref) → slice_get clocks.now.guard number ≡ Some guard → Holds store.now.nodes guard }
{
    match clocks.guard.get(class) {
        Some(guard) => push_guard(out, store, class, *guard, clocks.conditions.len()),
        None => Ok(()),
    }
}

/// Adds what a guard needs and, of at most eight conditions, its table.
fn push_guard(
    out: &mut String,
    store: &Store,
    class: usize,
    guard: Ref,
    count: usize,
) -> Result<(), DdAnswer>
    requires { Holds store.now.nodes guard }
{
    write!(out, "guard {class} needs")?;
    push_needs(out, store, guard)?;
    if count <= 8 {
        write!(out, "\nguard {class} table ")?;
        push_table(out, store, guard, 1 << count)?;
    }
    out.push('\n')?;
    Ok(())
}

/// Adds the variables on which a guard depends.
fn push_needs(out: &mut String, store: &Store, guard: Ref) -> Result<(), DdAnswer>
    requires { Holds store.now.nodes guard }
{
    for variable in &store.support(guard)? {
        write!(out, " {variable}")?;
    }
    Ok(())
}

/// Adds a hexadecimal number of so many bits: the bit `i` is the guard's value where each variable `v` is the bit `v` of `i`.
fn push_table(out: &mut String, store: &Store, guard: Ref, count: u32) -> Result<(), DdAnswer>
    requires { Holds store.now.nodes guard }
{
    let mut is_begun = false;
    for place in (0..count.div_ceil(4)).rev() {
        let digit = digit_of(
            *out.allocator(),
            store,
            guard,
            place.saturating_mul(4),
            count,
        )?;
        if is_begun || digit > 0 || place == 0 {
            write!(out, "{digit:x}")?;
            is_begun = true;
        }
    }
    Ok(())
}

/// The number that the four bits from this one on make.
fn digit_of(
    alloc: Global,
    store: &Store,
    guard: Ref,
    first: u32,
    count: u32,
) -> Result<u32, DdAnswer>
    requires { Holds store.now.nodes guard }
{
    let mut digit: u32 = 0;
    for number in (first..first.saturating_add(4).min(count)).rev() {
        let is_true = is_true_at(alloc, store, guard, 0, number)?;
        digit = digit.wrapping_mul(2) | u32::from(is_true);
    }
    Ok(digit)
}
