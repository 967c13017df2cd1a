//! The sections of a kernel.

use sig_base::{Kind, SigId};
use sig_kernel::{Form, Kernel, Operand};
use sig_rows_base::written;
use std::alloc::{AllocError, Global};
use std::fmt::Write;

fn kind_name(kind: Kind) -> &'static str {
    match kind {
        Kind::Integer => "integer",
        Kind::Boolean => "boolean",
        Kind::Event => "event",
    }
}

fn push_operand(out: &mut String, operand: Operand) -> Result<(), AllocError> {
    match operand {
        Operand::Sig(x) => write!(out, " {}", x.0),
        Operand::Const(constant) => write!(out, " c:{constant}"),
    }
}

fn push_form(out: &mut String, form: &Form) -> Result<(), AllocError> {
    match form {
        Form::Fun(y, op, operands) => {
            write!(out, "Fun {} {op:?}", y.0)?;
            for operand in operands.as_slice() {
                push_operand(out, *operand)?;
            }
            Ok(())
        }
        Form::Delay(y, x, init) => write!(out, "Delay {} {} {init}", y.0, x.0),
        Form::When(y, x, b) => write!(out, "When {} {} {}", y.0, x.0, b.0),
        Form::WhenConst(y, constant, b) => write!(out, "WhenConst {} {constant} {}", y.0, b.0),
        Form::Default(y, u, v) => write!(out, "Default {} {} {}", y.0, u.0, v.0),
        Form::Sync(x, y) => write!(out, "Sync {} {}", x.0, y.0),
        Form::Event(y, x) => write!(out, "Event {} {}", y.0, x.0),
    }
}

fn push_names(out: &mut String, kernel: &Kernel) -> Result<(), AllocError> {
    for (number, signal) in kernel.signals.as_slice().iter().enumerate() {
        let (name, kind) = (written(&signal.name), kind_name(signal.kind));
        write!(
            out,
            "signal {number} {name} {kind} {} {}\n",
            signal.cluster, signal.at
        )?;
    }
    Ok(())
}

fn push_equations(out: &mut String, kernel: &Kernel) -> Result<(), AllocError> {
    for (number, equation) in kernel.equations.as_slice().iter().enumerate() {
        write!(out, "eq {number} {} ", equation.at)?;
        push_form(out, &equation.form)?;
        out.push('\n')?;
    }
    Ok(())
}

/// Adds the counts, signals and equations.
pub(crate) fn push_kernel(out: &mut String, kernel: &Kernel) -> Result<(), AllocError> {
    let signals = kernel.signals.as_slice().len();
    let equations = kernel.equations.as_slice().len();
    let (inputs, outputs, declared) = (kernel.inputs, kernel.outputs, kernel.declared);
    write!(
        out,
        "counts {inputs} {outputs} {declared} {signals} {equations}\n"
    )?;
    push_names(out, kernel)?;
    push_equations(out, kernel)
}

/// Adds a line of a word and numbers.
pub(crate) fn push_numbers(
    out: &mut String,
    word: &str,
    numbers: &[u32],
) -> Result<(), AllocError> {
    let mut between = if word.is_empty() { "" } else { " " };
    out.push_str(word)?;
    for number in numbers {
        write!(out, "{between}{number}")?;
        between = " ";
    }
    out.push('\n')
}

/// Adds a line of a word and the numbers of signals.
pub(crate) fn push_signals(
    alloc: Global,
    out: &mut String,
    word: &str,
    signals: &[SigId],
) -> Result<(), AllocError> {
    let numbers: Vec<u32> = signals.iter().map(|x| x.0).collect(alloc)?;
    push_numbers(out, word, numbers.as_slice())
}
