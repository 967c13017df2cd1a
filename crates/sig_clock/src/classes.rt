//! Which signals have one clock because of the equations alone.

ghost use Rattle.std.specs.Prelude.{◌≡◌, ◌≤◌, ◌<◌, ◌∷◌};
ghost use Rattle.sig_clock.specs.Prelude.{[], ℕ, true, length, map, slice_index, IfOk, list_all, range_with_len, IsValid, form_within, operand_within};
ghost use Rattle.sig_clock.specs.SameClocks.{AreLeast, signals_among, related};
ghost use Rattle.sig_clock.specs.inner.Links.{AreJoined, relabel_one};

use crate::answer::ClockBase;
use sig_base::SigId;
use sig_kernel::{Form, Kernel, Operand};
use std::alloc::{AllocError, Global};

/// To each signal the least signal of its clock class: the classes are those of the smallest
/// equivalence that relates the signals of one `Fun`, `Delay`, `Sync` or `Event` equation. Only
/// memory can be wanting.
pub fn same_clock(alloc: Global, kernel: &Kernel) -> Result<Vec<u32>, ClockBase>
    requires { IsValid kernel.now }
    ensures { IfOk result (λ least. AreLeast kernel.now least.items) }
{
    let mut least = own_numbers(alloc, kernel.signals.as_slice().len())?;
    for equation in kernel.equations.as_slice() {
        relate(&mut least, &equation.form);
    }
    Ok(least)
}

/// The numbers from 0 up to a count.
fn own_numbers(alloc: Global, count: usize) -> Result<Vec<u32>, AllocError>
    requires { count ≤ 512 }
    ensures { IfOk result (λ numbers. numbers.items ≡ map (λ number. number) (range_with_len 0 count)) }
{
    (0..count as u32).map(|number| number).collect(alloc)
}

/// Puts the signals that the form relates into one class.
fn relate(least: &mut [u32], form: &Form)
    requires { form_within (length least.old) form.now ≡ true }
    ensures { AreJoined least.old least.new (related form.now) }
{
    match form {
        Form::Fun(y, _, operands) => relate_all(least, *y, operands.as_slice()),
        Form::Delay(y, x, _) | Form::Sync(y, x) | Form::Event(y, x) => join(least, *y, *x),
        Form::When(_y, _x, _b) => {}
        Form::WhenConst(_y, _constant, _b) => {}
        Form::Default(_y, _u, _v) => {}
    }
}

/// Puts a signal and those among the operands into one class.
fn relate_all(least: &mut [u32], y: SigId, operands: &[Operand])
    requires y { y.0 < length least.old }
    requires operands { list_all (operand_within (length least.old)) operands.now ≡ true }
    ensures { AreJoined least.old least.new (y.0 ∷ signals_among operands.now) }
{
    match operands.split_first() {
        Some((first, others)) => {
            relate_one(least, y, first);
            relate_all(least, y, others);
        }
        None => {}
    }
}

/// Puts a signal and an operand that is one into one class.
fn relate_one(least: &mut [u32], y: SigId, operand: &Operand)
    requires y { y.0 < length least.old }
    requires operand { operand_within (length least.old) operand.now ≡ true }
    ensures { AreJoined least.old least.new (y.0 ∷ signals_among (operand.now ∷ [])) }
{
    match operand {
        Operand::Sig(x) => join(least, y, *x),
        Operand::Const(_constant) => {}
    }
}

/// Puts two signals into one class, which has the lesser of both numbers.
fn join(least: &mut [u32], x: SigId, y: SigId)
    requires x { x.0 < length least.old }
    requires y { y.0 < length least.old }
    ensures { AreJoined least.old least.new (x.0 ∷ y.0 ∷ []) }
{
    let a = least[x.0 as usize];
    let b = least[y.0 as usize];
    if a < b {
        relabel(least, b, a);
    } else {
        relabel(least, a, b);
    }
}

/// Gives the signals of one number another one.
fn relabel(least: &mut [u32], from: u32, to: u32)
    ensures count { length least.new ≡ length least.old }
    ensures each { (k : ℕ) → k < length least.old
        → slice_index least.new k ≡ relabel_one from to (slice_index least.old k) }
{
    for number in least.iter_mut() {
        *number = relabel_one(*number, from, to);
    }
}

fn relabel_one(number: u32, from: u32, to: u32) -> u32
    ensures { result ≡ relabel_one from to number }
{
    if number == from { to } else { number }
}
