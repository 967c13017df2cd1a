//! Which kernels are valid.

ghost use Rattle.std.specs.Prelude.{◌≡◌, ◌↔◌};
ghost use Rattle.sig_kernel.specs.Prelude.{IsTrue, bytes_eq, count_by, map, IsDistinct, list_all, list_any};
ghost use Rattle.sig_kernel.specs.Table.{operands_of};
ghost use Rattle.sig_kernel.specs.Validity.{AreWellMade, DefinesEach, HasParts, defines, form_within, is_below, is_signal, operand_within};

use crate::equation::{Equation, Form, Operand};
use crate::kernel::Kernel;
use crate::table::form_fits;
use sig_base::{SigId, Signal, limits};

impl Kernel {
    ghost use Rattle.sig_kernel.specs.Validity.{IsValid};

    /// Whether the kernel is valid: inputs and outputs together are at most `declared`, which is at
    /// most the number of signals; there are at most 512 signals and fewer than 2^32 equations; the
    /// inputs' names differ; the equations name signals that are there, keep to the table of kinds
    /// and have a signal among their operands; no input is defined, and each other signal is defined
    /// once. It takes no memory.
    pub fn is_valid(&self) -> bool
        ensures { IsTrue result ↔ IsValid self.now }
    {
        has_parts(self) && names_differ(self.inputs()) && equations_fit(self) && defines_each(self)
    }
}

/// Whether the parts are counted right.
fn has_parts(kernel: &Kernel) -> bool
    ensures { IsTrue result ↔ HasParts kernel.now }
{
    let signals = kernel.signals.as_slice().len();
    kernel.inputs as u64 + kernel.outputs as u64 <= kernel.declared as u64
        && kernel.declared as usize <= signals
        && signals <= limits::SIGNALS as usize
        && kernel.equations.as_slice().len() <= u32::MAX as usize
}

/// Whether no name stands twice.
fn names_differ(signals: &[Signal]) -> bool
    ensures { IsTrue result ↔ IsDistinct bytes_eq (map (λ signal. signal.name) signals.now) }
{
    match signals.split_first() {
        Some((first, others)) => !has_named(others, first.name.as_bytes()) && names_differ(others),
        None => true,
    }
}

/// Whether a signal has this name.
fn has_named(signals: &[Signal], name: &[u8]) -> bool
    ensures { result ≡ list_any (λ signal. bytes_eq name.now signal.name) signals.now }
{
    signals.iter().any(|signal| name == signal.name.as_bytes())
}

/// Whether each equation names signals that are there, keeps to the table of kinds, and has a signal
/// among its operands.
fn equations_fit(kernel: &Kernel) -> bool
    ensures { IsTrue result ↔ AreWellMade kernel.now }
{
    let signals = kernel.signals.as_slice();
    let equations = kernel.equations.as_slice();
    equations
        .iter()
        .all(|equation| is_within(signals.len(), &equation.form))
        && equations
            .iter()
            .all(|equation| form_fits(signals, &equation.form))
        && equations.iter().all(|equation| has_signal(&equation.form))
}

/// Whether each signal that the form names has a number below the count.
fn is_within(count: usize, form: &Form) -> bool
    ensures { result ≡ form_within count form.now }
{
    match form {
        Form::Fun(y, _, operands) => {
            is_below(count, *y) && are_operands_below(count, operands.as_slice())
        }
        Form::Delay(y, x, _) | Form::WhenConst(y, _, x) | Form::Event(y, x) | Form::Sync(y, x) => {
            is_below(count, *y) && is_below(count, *x)
        }
        Form::When(y, a, b) | Form::Default(y, a, b) => {
            is_below(count, *y) && is_below(count, *a) && is_below(count, *b)
        }
    }
}

fn is_below(count: usize, signal: SigId) -> bool
    ensures { result ≡ is_below count signal }
{
    (signal.0 as usize) < count
}

fn are_operands_below(count: usize, operands: &[Operand]) -> bool
    ensures { result ≡ list_all (operand_within count) operands.now }
{
    operands
        .iter()
        .all(|operand| is_operand_below(count, *operand))
}

fn is_operand_below(count: usize, operand: Operand) -> bool
    ensures { result ≡ operand_within count operand }
{
    match operand {
        Operand::Sig(signal) => is_below(count, signal),
        Operand::Const(_) => true,
    }
}

/// Whether a signal is among the operands.
fn has_signal(form: &Form) -> bool
    ensures { result ≡ list_any is_signal (operands_of form.now) }
{
    match form {
        Form::Fun(_, _, operands) => operands
            .as_slice()
            .iter()
            .any(|operand| is_signal(*operand)),
        Form::Delay(_, _, _)
        | Form::When(_, _, _)
        | Form::WhenConst(_, _, _)
        | Form::Default(_, _, _)
        | Form::Sync(_, _)
        | Form::Event(_, _) => true,
    }
}

fn is_signal(operand: Operand) -> bool
    ensures { result ≡ is_signal operand }
{
    matches!(operand, Operand::Sig(_))
}

/// Whether no input is defined, and each other signal once.
fn defines_each(kernel: &Kernel) -> bool
    requires { HasParts kernel.now }
    ensures { IsTrue result ↔ DefinesEach kernel.now }
{
    let count = kernel.signals.as_slice().len();
    for signal in 0..count {
        let wanted = if signal < kernel.inputs as usize {
            0
        } else {
            1
        };
        if definitions(kernel, signal) != wanted {
            return false;
        }
    }
    true
}

/// How many equations define the signal of this number.
fn definitions(kernel: &Kernel, signal: usize) -> usize
    ensures { result ≡ count_by (defines signal) kernel.now.equations }
{
    kernel
        .equations
        .as_slice()
        .iter()
        .filter(|equation| defines(equation, signal))
        .count()
}

/// Whether the equation defines the signal of this number.
fn defines(equation: &Equation, signal: usize) -> bool
    ensures { result ≡ defines signal equation.now }
{
    match &equation.form {
        Form::Fun(y, _, _)
        | Form::Delay(y, _, _)
        | Form::When(y, _, _)
        | Form::WhenConst(y, _, _)
        | Form::Default(y, _, _)
        | Form::Event(y, _) => y.0 as usize == signal,
        Form::Sync(_, _) => false,
    }
}
