//! What decides the clock classes and the booleans of a kernel.

ghost use Rattle.std.specs.Prelude.{◌≡◌, ◌<◌};
ghost use Rattle.sig_rel.specs.Prelude.{ℕ, false, true, None, length, map, replicate, slice_index, IfOk, MatchOption, list_all, list_any, range_with_len, IsValid, defines};
ghost use Rattle.sig_rel.specs.inner.Firsts.{AreFirsts};
ghost use Rattle.sig_rel.specs.inner.Schedules.{AreNamed};
ghost use Rattle.sig_rel.specs.Systems.{AreConditions};
ghost use Rattle.sig_rel.specs.inner.Tables.{AreRulesOf, allows_top, counted_for, defined_for, gives, governs, has_operand_of, is_excused, is_numbered, is_top_class, repeats, target_number};

use crate::firsts::{first_defining, first_given, row, without_unexcused};
use crate::numbering::is_boolean;
use sig_base::SigId;
use sig_clock::{ClockBase, same_clock};
use sig_kernel::{Equation, Form, Kernel};
use std::alloc::{AllocError, Global};

/// For each signal the least signal of its clock class; for each class, at its least signal, the
/// number of the equation that gives it its presence, where there is one; for each boolean that is
/// no condition the number of the equation that defines it.
#[derive(Drop)]
pub(crate) struct Rules {
    pub(crate) least: Vec<u32>,
    pub(crate) counted: Vec<Option<u32>>,
    pub(crate) defined: Vec<Option<u32>>,
}

/// What decides the classes and the booleans of a kernel. Its conditions are given.
pub(crate) fn rules_of(
    alloc: Global,
    kernel: &Kernel,
    conditions: &[SigId],
) -> Result<Rules, ClockBase>
    requires valid { IsValid kernel.now }
    requires conditions { AreConditions kernel.now conditions.now }
    ensures { IfOk result (AreRulesOf kernel.now) }
{
    let least = same_clock(alloc, kernel)?;
    let counted = counted_of(alloc, kernel, least.as_slice())?;
    let defined = defined_of(alloc, kernel, conditions)?;
    Ok(Rules {
        least,
        counted,
        defined,
    })
}

/// The least signals of the classes, no equation for any class, and the equations that define booleans
/// that are no conditions.
pub(crate) fn defined_rules(
    alloc: Global,
    kernel: &Kernel,
    conditions: &[SigId],
) -> Result<Rules, ClockBase>
    requires valid { IsValid kernel.now }
    requires conditions { AreConditions kernel.now conditions.now }
    ensures { IfOk result (AreNamed kernel.now) }
{
    let least = same_clock(alloc, kernel)?;
    let counted = no_rows(alloc, kernel.signals.as_slice().len())?;
    let defined = defined_of(alloc, kernel, conditions)?;
    Ok(Rules {
        least,
        counted,
        defined,
    })
}

/// A table that names no equation.
pub(crate) fn no_rows(alloc: Global, count: usize) -> Result<Vec<Option<u32>>, AllocError>
    ensures { IfOk result (λ rows. rows.items ≡ replicate count None) }
{
    vec![in alloc; None; count]
}

/// For each class the equation that is counted for it: it gives the class its presence from those of
/// other classes, and each other When, WhenConst or Default that defines a signal of the class repeats it.
fn counted_of(alloc: Global, kernel: &Kernel, least: &[u32]) -> Result<Vec<Option<u32>>, AllocError>
    requires { IsValid kernel.now }
    ensures { IfOk result (λ counted. counted.items
        ≡ map (counted_for kernel.now least.now) (range_with_len 0 (length kernel.now.signals))) }
{
    let mut counted = first_given(alloc, kernel, least)?;
    without_unexcused(&mut counted, kernel, least);
    Ok(counted)
}

/// Whether an equation gives a class its presence from those of other classes.
pub(crate) fn gives(least: &[u32], class: usize, equation: &Equation) -> bool
    ensures { result ≡ gives least.now class equation.now }
{
    governs(least, class, &equation.form) && !has_operand_of(least, class, &equation.form)
}

/// Whether an equation defines no signal of a class, or repeats the counted one, or is that one.
pub(crate) fn is_excused(least: &[u32], class: usize, counted: &Form, equation: &Equation) -> bool
    ensures { result ≡ is_excused least.now class counted.now equation.now }
{
    !governs(least, class, &equation.form)
        || repeats(least, class, counted, &equation.form)
        || defines(equation, target_number(counted) as usize)
}

/// Whether a form is a When, WhenConst or Default that defines a signal of a class.
pub(crate) fn governs(least: &[u32], class: usize, form: &Form) -> bool
    ensures { result ≡ governs least.now class form.now }
{
    match form {
        Form::When(y, _, _) | Form::WhenConst(y, _, _) | Form::Default(y, _, _) => {
            class_of(least, *y) == class
        }
        Form::Fun(_, _, _) | Form::Delay(_, _, _) | Form::Sync(_, _) | Form::Event(_, _) => false,
    }
}

/// Whether a form is a Default with an operand of a class.
fn has_operand_of(least: &[u32], class: usize, form: &Form) -> bool
    ensures { result ≡ has_operand_of least.now class form.now }
{
    match form {
        Form::Default(_, u, v) => class_of(least, *u) == class || class_of(least, *v) == class,
        Form::Fun(_, _, _)
        | Form::Delay(_, _, _)
        | Form::When(_, _, _)
        | Form::WhenConst(_, _, _)
        | Form::Sync(_, _)
        | Form::Event(_, _) => false,
    }
}

/// Whether a form is a Default with an operand of a class, the other operand being of the class of
/// an operand of a counted Default.
fn repeats(least: &[u32], class: usize, counted: &Form, form: &Form) -> bool
    ensures { result ≡ repeats least.now class counted.now form.now }
{
    match form {
        Form::Default(_, u, v) => {
            let (u, v) = (class_of(least, *u), class_of(least, *v));
            (u == class && has_operand_of(least, v, counted))
                || (v == class && has_operand_of(least, u, counted))
        }
        Form::Fun(_, _, _)
        | Form::Delay(_, _, _)
        | Form::When(_, _, _)
        | Form::WhenConst(_, _, _)
        | Form::Sync(_, _)
        | Form::Event(_, _) => false,
    }
}

/// The least signal of a signal's class.
pub(crate) fn class_of(least: &[u32], x: SigId) -> usize
    ensures { result ≡ slice_index least.now x.0 }
{
    least_of(least, x.0 as usize)
}

/// The least signal of the class of the signal of this number.
pub(crate) fn least_of(least: &[u32], x: usize) -> usize
    ensures { result ≡ slice_index least.now x }
{
    match least.get(x) {
        Some(class) => *class as usize,
        None => 0,
    }
}

/// The signal that a form defines.
pub(crate) fn target_number(form: &Form) -> u32
    ensures { result ≡ target_number form.now }
{
    match form {
        Form::Fun(y, _, _)
        | Form::Delay(y, _, _)
        | Form::When(y, _, _)
        | Form::WhenConst(y, _, _)
        | Form::Default(y, _, _)
        | Form::Sync(y, _)
        | Form::Event(y, _) => y.0,
    }
}

/// Whether an equation defines a signal.
pub(crate) fn defines(equation: &Equation, signal: usize) -> bool
    ensures { result ≡ defines signal equation.now }
{
    match equation.form {
        Form::Sync(_, _) => false,
        _ => target_number(&equation.form) as usize == signal,
    }
}

/// For each boolean that is no condition the equation that defines it.
fn defined_of(
    alloc: Global,
    kernel: &Kernel,
    conditions: &[SigId],
) -> Result<Vec<Option<u32>>, AllocError>
    requires { IsValid kernel.now }
    ensures { IfOk result (λ defined. defined.items
        ≡ map (defined_for kernel.now conditions.now) (range_with_len 0 (length kernel.now.signals))) }
{
    let firsts = first_defining(alloc, kernel)?;
    let mut defined = Vec::new(alloc);
    for signal in 0..kernel.signals.as_slice().len() {
        defined.push(defined_for(kernel, conditions, &firsts, signal))?;
    }
    Ok(defined)
}

/// The equation that defines a signal, where that is a boolean and no condition. The first equation
/// that defines each signal is given.
fn defined_for(
    kernel: &Kernel,
    conditions: &[SigId],
    firsts: &[Option<u32>],
    signal: usize,
) -> Option<u32>
    requires firsts { AreFirsts defines kernel.now firsts.now }
    requires signal { signal < length kernel.now.signals }
    ensures { result ≡ defined_for kernel.now conditions.now signal }
{
    if is_boolean(kernel, signal) && !is_listed(conditions, signal) {
        row(firsts, signal)
    } else {
        None
    }
}

/// Whether a signal is among conditions.
pub(crate) fn is_listed(conditions: &[SigId], signal: usize) -> bool
    ensures { result ≡ list_any (is_numbered signal) conditions.now }
{
    for condition in conditions {
        if condition.0 as usize == signal {
            return true;
        }
    }
    false
}

/// The class that no equation gives its presence from those of other classes, if there is one.
pub(crate) fn top_of(
    alloc: Global,
    kernel: &Kernel,
    least: &[u32],
) -> Result<Option<usize>, AllocError>
    requires valid { IsValid kernel.now }
    requires count { length least.now ≡ length kernel.now.signals }
    ensures { IfOk result (λ top. MatchOption top
        ((class : ℕ) → class < length least.now → is_top_class kernel.now least.now class ≡ false)
        (λ top. (top < length least.now) × (is_top_class kernel.now least.now top ≡ true))) }
{
    let firsts = first_given(alloc, kernel, least)?;
    for class in 0..least.len() {
        if is_top(kernel, least, &firsts, class) {
            return Ok(Some(class));
        }
    }
    Ok(None)
}

/// Whether a number is that of a class, and no equation gives that class its presence from those of
/// other classes. The first equation that gives each class its presence is given.
fn is_top(_kernel: &Kernel, least: &[u32], firsts: &[Option<u32>], class: usize) -> bool
    requires firsts { AreFirsts (gives least.now) _kernel.now firsts.now }
    requires class { class < length _kernel.now.signals }
    ensures { result ≡ is_top_class _kernel.now least.now class }
{
    least_of(least, class) == class && is_never_given(_kernel, least, firsts, class)
}

/// Whether no equation gives a class its presence from those of other classes.
fn is_never_given(_kernel: &Kernel, _least: &[u32], firsts: &[Option<u32>], class: usize) -> bool
    requires firsts { AreFirsts (gives _least.now) _kernel.now firsts.now }
    requires class { class < length _kernel.now.signals }
    ensures { result ≡ list_all (allows_top _least.now class) _kernel.now.equations }
{
    match row(firsts, class) {
        Some(_) => false,
        None => true,
    }
}
