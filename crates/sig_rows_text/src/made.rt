//! Kernels that are made by words, and whether they are valid and flows fit them.

use anyhow::Result;
use sig_base::{Kind, SigId, Signal, Span, Text};
use sig_kernel::{
    Equation, Equations, Flow, Form, FunOp, Inputs, Kernel, Operand, Operands, Signals,
};
use std::alloc::{AllocError, Global};
use std::fmt::Write;

/// The signals of `Y := A default (ZY - 1)`, `ZY := Y $ init 0`, `A ^= when (ZY <= 0)`.
const SIGNALS: &str = "A Y ZY #1:1 #1:2 #1:3";

/// Their equations.
const EQUATIONS: &str = "Sub 3 2 1,Default 1 0 3,Delay 2 1 0,Le 4 2 0,WhenConst 5 1 4,Sync 0 5";

const AT: Span = Span { line: 1, col: 1 };

/// The form of an equation that words tell.
fn form_of(alloc: Global, text: &str) -> Result<Form> {
    let (name, numbers) = text.split_once(' ').unwrap_or((text, ""));
    let (y, x, z) = numbers_of(numbers)?;
    Ok(match name {
        "Default" => Form::Default(SigId(y), SigId(x), SigId(z)),
        "When" => Form::When(SigId(y), SigId(x), SigId(z)),
        "WhenConst" => Form::WhenConst(SigId(y), i64::from(x), SigId(z)),
        "Delay" => Form::Delay(SigId(y), SigId(x), i64::from(z)),
        "Event" => Form::Event(SigId(y), SigId(x)),
        "Sync" => Form::Sync(SigId(y), SigId(x)),
        _ => Form::Fun(SigId(y), operator_of(name), operands_of(alloc, x, z)?),
    })
}

/// Three numbers; 0 for one that is not told.
fn numbers_of(text: &str) -> Result<(u32, u32, u32)> {
    let mut words = text.split_whitespace();
    let y = words.next().unwrap_or("0").parse::<u32>()?;
    let x = words.next().unwrap_or("0").parse::<u32>()?;
    let z = words.next().unwrap_or("0").parse::<u32>()?;
    Ok((y, x, z))
}

fn operator_of(name: &str) -> FunOp {
    match name {
        "Sub" => FunOp::Sub,
        "Le" => FunOp::Le,
        _ => FunOp::Eq,
    }
}

/// A signal and a constant.
fn operands_of(alloc: Global, x: u32, z: u32) -> Result<Operands, AllocError> {
    let mut operands = Vec::new(alloc);
    operands.push(Operand::Sig(SigId(x)))?;
    operands.push(Operand::Const(i64::from(z)))?;
    Ok(Operands::from(operands))
}

fn kind_of(name: &str) -> Kind {
    match name {
        "#1:2" => Kind::Boolean,
        "#1:3" => Kind::Event,
        _ => Kind::Integer,
    }
}

fn signals_of(alloc: Global) -> Result<Signals, AllocError> {
    let mut signals = Vec::new(alloc);
    for name in SIGNALS.split(' ') {
        signals.push(Signal {
            name: Text::from_bytes(alloc, name.as_bytes())?,
            kind: kind_of(name),
            cluster: 0,
            at: AT,
        })?;
    }
    Ok(Signals::from(signals))
}

/// The equations that words tell: how many of the ones above, and one more.
fn equations_of(alloc: Global, text: &str) -> Result<Equations> {
    let mut words = text.splitn(2, ' ');
    let count = words.next().unwrap_or("").parse::<usize>()?;
    let mut equations = Vec::new(alloc);
    for text in EQUATIONS.split(',').take(count).chain(words) {
        let form = form_of(alloc, text)?;
        equations.push(Equation { form, at: AT })?;
    }
    Ok(Equations::from(equations))
}

/// The kernel that words tell: how many inputs it has, and its equations.
fn kernel_of(alloc: Global, text: &str) -> Result<Kernel> {
    let (inputs, text) = text.split_once(' ').unwrap_or((text, ""));
    let inputs = inputs.parse::<u32>()?;
    let equations = equations_of(alloc, text)?;
    Ok(Kernel {
        signals: signals_of(alloc)?,
        equations,
        inputs,
        outputs: 1,
        declared: 3,
    })
}

/// The one flow 3 2.
fn one_flow(alloc: Global) -> Result<Inputs, AllocError> {
    let mut flows = Vec::new(alloc);
    flows.push(Flow::from([3, 2].to_vec(alloc)?))?;
    Ok(Inputs::from(flows))
}

/// Adds whether the kernel is valid, or whether the flow fits.
pub(crate) fn write_valid(alloc: Global, out: &mut String, kind: &str, text: &str) -> Result<()> {
    let kernel = kernel_of(alloc, text)?;
    let holds = if kind == "fits" {
        one_flow(alloc)?.fits(&kernel)
    } else {
        kernel.is_valid()
    };
    Ok(write!(out, "{holds}")?)
}
