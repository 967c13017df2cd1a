//! The report, pass by pass.

ghost use Rattle.sig_kernel.specs.Validity.{IsValid};

use super::sections::{push_kernel, push_numbers, push_signals};
use super::solutions::push_solution;
use anyhow::Result;
use sig_back::back;
use sig_base::limits::PROGRAM_BYTES;
use sig_clock::{condition_set, same_clock};
use sig_code::code_text;
use sig_flow::read_flows;
use sig_front::front;
use sig_kernel::{Inputs, Kernel};
use sig_plan::{LinkInfo, Plan};
use sig_rows_base::written;
use std::alloc::{AllocError, Global};
use std::fmt::Write;

/// Adds what the passes answer for a program, with the flows of a file where there is one.
pub fn push_report(
    alloc: Global,
    out: &mut String,
    program: &[u8],
    flows: Option<&[u8]>,
) -> Result<()> {
    out.push_str("== kernel\n")?;
    if program.len() > PROGRAM_BYTES {
        return Ok(out.push_str("error: program longer than 1048576 bytes\n")?);
    }
    match front(alloc, program) {
        Ok(kernel) => push_passes(alloc, out, kernel, flows),
        Err(answer) => Ok(write!(out, "{answer}\n")?),
    }
}

/// Adds what the passes behind the kernel answer.
fn push_passes(alloc: Global, out: &mut String, kernel: Kernel, flows: Option<&[u8]>) -> Result<()>
    requires { IsValid kernel }
{
    if push_clocks(alloc, out, &kernel, flows)? {
        push_plan(alloc, out, kernel)?;
    }
    Ok(())
}

/// Adds what the passes up to the order of operations answer. False where a place of the flows offends.
fn push_clocks(
    alloc: Global,
    out: &mut String,
    kernel: &Kernel,
    flows: Option<&[u8]>,
) -> Result<bool>
    requires { IsValid kernel.now }
{
    push_kernel(out, kernel)?;
    push_classes(alloc, out, kernel)?;
    let is_good = push_flows(alloc, out, kernel, flows)?;
    if is_good {
        push_solution(alloc, out, kernel)?;
    }
    Ok(is_good)
}

fn push_classes(alloc: Global, out: &mut String, kernel: &Kernel) -> Result<()>
    requires { IsValid kernel.now }
{
    out.push_str("== classes\n")?;
    push_numbers(out, "", same_clock(alloc, kernel)?.as_slice())?;
    out.push_str("== conditions\n")?;
    push_signals(alloc, out, "", condition_set(alloc, kernel)?.as_slice())?;
    Ok(())
}

/// Adds the flows of a file, or its first offending place, where there is a file. False where a place offends.
fn push_flows(
    alloc: Global,
    out: &mut String,
    kernel: &Kernel,
    flows: Option<&[u8]>,
) -> Result<bool>
    requires { IsValid kernel.now }
{
    let Some(bytes) = flows else {
        return Ok(true);
    };
    out.push_str("== flows\n")?;
    match read_flows(alloc, bytes, kernel) {
        Ok(inputs) => {
            push_inputs(out, kernel, &inputs)?;
            Ok(true)
        }
        Err(answer) => {
            write!(out, "error: F:{answer}\n")?;
            Ok(false)
        }
    }
}

fn push_inputs(out: &mut String, kernel: &Kernel, inputs: &Inputs) -> Result<(), AllocError> {
    for (signal, flow) in kernel.signals.as_slice().iter().zip(inputs.as_slice()) {
        out.push_str(written(&signal.name))?;
        for value in flow.as_slice() {
            write!(out, " {value}")?;
        }
        out.push('\n')?;
    }
    Ok(())
}

/// Adds the links and the text of the code, or the line of the pass that refused.
fn push_plan(alloc: Global, out: &mut String, kernel: Kernel) -> Result<()>
    requires { IsValid kernel }
{
    match back(alloc, kernel) {
        Ok(plan) => push_code(alloc, out, &plan),
        Err(answer) => Ok(write!(out, "{answer}\n")?),
    }
}

fn push_code(alloc: Global, out: &mut String, plan: &Plan) -> Result<()> {
    push_links(out, plan.links.as_slice())?;
    let text = code_text(alloc, plan)?;
    out.push_str(str::from_utf8(text.as_slice())?)?;
    Ok(())
}

fn push_links(out: &mut String, links: &[LinkInfo]) -> Result<(), AllocError> {
    for (number, link) in links.iter().enumerate() {
        match link.signal {
            Some(x) => write!(
                out,
                "link {number} {} {} {}\n",
                x.0, link.writer, link.reader
            ),
            None => write!(out, "link {number} - {} {}\n", link.writer, link.reader),
        }?;
    }
    Ok(())
}
