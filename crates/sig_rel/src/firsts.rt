//! Tables of equations that one walk over the equations makes: to each class the first equation that
//! gives it its presence, and to each signal the first that defines it.

ghost use Rattle.std.specs.Prelude.{◌≡◌, ◌<◌, ◌==◌, if◌then◌else◌};
ghost use Rattle.sig_rel.specs.Prelude.{ℕ, None, length, slice_index_or, IfOk, IsValid, defines};
ghost use Rattle.sig_rel.specs.inner.Firsts.{AreCounted, AreFirsts, first_or, first_where, is_unexcused, kept_by};
ghost use Rattle.sig_rel.specs.inner.Tables.{gives};

use crate::rules::{class_of, defines, gives, is_excused, no_rows, target_number};
use sig_base::SigId;
use sig_kernel::{Equation, Kernel};
use std::alloc::{AllocError, Global};

/// To each class the first equation that gives it its presence from those of other classes.
pub(crate) fn first_given(
    alloc: Global,
    kernel: &Kernel,
    least: &[u32],
) -> Result<Vec<Option<u32>>, AllocError>
    requires { IsValid kernel.now }
    ensures { IfOk result (λ firsts. AreFirsts (gives least.now) kernel.now firsts.items) }
{
    let equations = kernel.equations.as_slice();
    let mut firsts = no_rows(alloc, kernel.signals.as_slice().len())?;
    for number in 0..equations.len() {
        note_given(&mut firsts, least, number as u32, &equations[number]);
    }
    Ok(firsts)
}

/// Notes an equation at the class to which it gives its presence, if it is the first.
fn note_given(firsts: &mut [Option<u32>], least: &[u32], number: u32, equation: &Equation)
    ensures count { length firsts.new ≡ length firsts.old }
    ensures each { (class : ℕ) → class < length firsts.old → slice_index_or firsts.new class None
        ≡ first_or (slice_index_or firsts.old class None) (gives least.now class equation.now) number }
{
    let class = class_of(least, SigId(target_number(&equation.form)));
    if gives(least, class, equation) {
        note(firsts, class, number);
    }
}

/// To each signal the first equation that defines it.
pub(crate) fn first_defining(alloc: Global, kernel: &Kernel) -> Result<Vec<Option<u32>>, AllocError>
    requires { IsValid kernel.now }
    ensures { IfOk result (λ firsts. AreFirsts defines kernel.now firsts.items) }
{
    let equations = kernel.equations.as_slice();
    let mut firsts = no_rows(alloc, kernel.signals.as_slice().len())?;
    for number in 0..equations.len() {
        note_defining(&mut firsts, number as u32, &equations[number]);
    }
    Ok(firsts)
}

/// Notes an equation at the signal that it defines, if it is the first.
fn note_defining(firsts: &mut [Option<u32>], number: u32, equation: &Equation)
    ensures count { length firsts.new ≡ length firsts.old }
    ensures each { (signal : ℕ) → signal < length firsts.old → slice_index_or firsts.new signal None
        ≡ first_or (slice_index_or firsts.old signal None) (defines signal equation.now) number }
{
    let signal = target_number(&equation.form) as usize;
    if defines(equation, signal) {
        note(firsts, signal, number);
    }
}

/// Notes an equation at a place where none is.
fn note(firsts: &mut [Option<u32>], place: usize, number: u32)
    ensures count { length firsts.new ≡ length firsts.old }
    ensures each { (k : ℕ) → k < length firsts.old → slice_index_or firsts.new k None
        ≡ first_where k place (slice_index_or firsts.old k None) number }
{
    if place < firsts.len() && firsts[place].is_none() {
        firsts[place] = Some(number);
    }
}

/// What a table of equations has at a place.
pub(crate) fn row(rows: &[Option<u32>], place: usize) -> Option<u32>
    ensures { result ≡ slice_index_or rows.now place None }
{
    match rows.get(place) {
        Some(number) => *number,
        None => None,
    }
}

/// Leaves, of the first equations that give the classes their presences, those that are counted.
pub(crate) fn without_unexcused(firsts: &mut [Option<u32>], kernel: &Kernel, least: &[u32])
    requires { AreFirsts (gives least.now) kernel.now firsts.old }
    ensures { AreCounted kernel.now least.now firsts.new }
{
    for equation in kernel.equations.as_slice() {
        drop_unexcused(firsts, kernel, least, equation);
    }
}

/// Drops the first equation of a class where this one is a reason against it.
fn drop_unexcused(counted: &mut [Option<u32>], kernel: &Kernel, least: &[u32], equation: &Equation)
    ensures count { length counted.new ≡ length counted.old }
    ensures each { (class : ℕ) → class < length counted.old → slice_index_or counted.new class None
        ≡ kept_by kernel.now.equations least.now class equation.now (slice_index_or counted.old class None) }
{
    let class = class_of(least, SigId(target_number(&equation.form)));
    if is_unexcused(row(counted, class), kernel, least, class, equation) {
        clear(counted, class);
    }
}

/// Whether an equation is a reason against the first one of a class, if there is one.
fn is_unexcused(
    first: Option<u32>,
    kernel: &Kernel,
    least: &[u32],
    class: usize,
    equation: &Equation,
) -> bool
    ensures { result ≡ is_unexcused kernel.now.equations least.now class equation.now first }
{
    let Some(number) = first else {
        return false;
    };
    match kernel.equations.as_slice().get(number as usize) {
        Some(counted) => !is_excused(least, class, &counted.form, equation),
        None => false,
    }
}

/// Clears the place of a table.
fn clear(rows: &mut [Option<u32>], place: usize)
    ensures count { length rows.new ≡ length rows.old }
    ensures each { (k : ℕ) → k < length rows.old → slice_index_or rows.new k None
        ≡ if k == place then None else slice_index_or rows.old k None }
{
    if place < rows.len() {
        rows[place] = None;
    }
}
