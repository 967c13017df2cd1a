//! The plans of kernels, their parts, and their codes.

ghost use Rattle.std.specs.Prelude.{IfOk};
ghost use Rattle.sig_clock.specs.Clocks.{AreClocks};
ghost use Rattle.sig_dd.specs.Nodes.{IsStore};
ghost use Rattle.sig_kernel.specs.Validity.{IsValid};

use super::guards::{put_slots, put_steps};
use anyhow::{Context, Result, bail};
use sig_back::{BackAnswer, back};
use sig_clock::Clocks;
use sig_code::code_text;
use sig_dd::Store;
use sig_graph::order;
use sig_kernel::Kernel;
use sig_part::split;
use sig_plan::{Parts, Plan, operations};
use sig_rows_base::kernel_of;
use sig_solve::solve;
use std::alloc::{AllocError, Global};
use std::fmt::Write;

const NODES: u32 = 100_000;

/// Adds the answer of a row about a program's plan, or the line of a refusal that takes too much to come to.
pub fn write_plan_row(
    alloc: Global,
    out: &mut String,
    program: &[u8],
    kind: &str,
    text: &str,
) -> Result<()> {
    match kind {
        "plan" => write_plan(alloc, out, program, text),
        "split" => write_split(alloc, out, program, text),
        _ => Ok(write!(out, "{}", BackAnswer::Budget(8_000_000))?),
    }
}

/// Puts the first signal on this cluster, where that is a number.
fn put_first(kernel: &mut Kernel, cluster: &str) {
    if let Ok(cluster) = cluster.parse::<u32>()
        && let Some(signal) = kernel.signals.list.first_mut()
    {
        signal.cluster = cluster;
    }
}

/// The kernel of a program, its first signal on this cluster, where that is a number.
fn clustered(alloc: Global, program: &[u8], cluster: &str) -> Result<Kernel>
    ensures { IfOk result IsValid }
{
    let mut kernel = kernel_of(alloc, program)?;
    put_first(&mut kernel, cluster);
    if !kernel.is_valid() {
        bail!("the kernel is not valid");
    }
    Ok(kernel)
}

/// Adds the parts of a program's kernel, as they are without its plan: how many clusters and links there are, what each
/// actor imports, or the links.
fn write_split(alloc: Global, out: &mut String, program: &[u8], text: &str) -> Result<()> {
    let (what, cluster) = text.split_once(' ').unwrap_or((text, ""));
    let kernel = clustered(alloc, program, cluster)?;
    let mut store = Store::new(alloc, NODES)?;
    write_solved(alloc, out, &kernel, &mut store, what)
}

/// The same with a store for the clocks.
fn write_solved(
    alloc: Global,
    out: &mut String,
    kernel: &Kernel,
    store: &mut Store,
    what: &str,
) -> Result<()>
    requires { IsValid kernel.now }
{
    let clocks = solve(alloc, kernel, store)?;
    write_parts(alloc, out, kernel, &clocks, store, what)
}

/// The same with the clocks of the kernel.
fn write_parts(
    alloc: Global,
    out: &mut String,
    kernel: &Kernel,
    clocks: &Clocks,
    store: &mut Store,
    what: &str,
) -> Result<()>
    requires valid { IsValid kernel.now }
    requires store { IsStore store.old }
    requires clocks { AreClocks kernel.now store.old.nodes clocks.now }
{
    let ops = operations(alloc, kernel, clocks, store)?;
    let order = order(alloc, kernel, &ops, clocks, store)?;
    let parts = split(alloc, kernel, &ops, &order, clocks, store)?;
    Ok(put_parts(out, what, &parts)?)
}

fn put_parts(out: &mut String, what: &str, parts: &Parts) -> Result<(), AllocError> {
    match what {
        "imports" => write!(out, "{:?}", parts.imports.as_slice()),
        "links" => write!(out, "{:?}", parts.links.as_slice()),
        _ => write!(
            out,
            "{} clusters, {} links",
            parts.clusters,
            parts.links.len()
        ),
    }
}

/// Adds what is asked of a program's plan, or the line of a program that has none.
fn write_plan(alloc: Global, out: &mut String, program: &[u8], text: &str) -> Result<()> {
    let (what, number) = text.split_once(' ').unwrap_or((text, ""));
    let cluster = if what == "cluster" { number } else { "" };
    match back(alloc, clustered(alloc, program, cluster)?) {
        Ok(plan) => write_part(alloc, out, &plan, what, number),
        Err(answer) => Ok(write!(out, "{answer}")?),
    }
}

/// Adds a part of a plan.
fn write_part(
    alloc: Global,
    out: &mut String,
    plan: &Plan,
    what: &str,
    number: &str,
) -> Result<()> {
    if what == "code" {
        put_code(alloc, out, plan)
    } else if let Ok(number) = number.parse::<usize>() {
        put_actor(out, plan, what, number)
    } else {
        Ok(put_part(out, plan, what)?)
    }
}

fn put_code(alloc: Global, out: &mut String, plan: &Plan) -> Result<()> {
    let text = code_text(alloc, plan)?;
    Ok(out.push_str(str::from_utf8(text.as_slice())?)?)
}

/// Adds a part of the code of an actor.
fn put_actor(out: &mut String, plan: &Plan, what: &str, number: usize) -> Result<()> {
    let code = plan.codes.get(number).context("there is no such actor")?;
    if what == "slots" {
        put_slots(out, plan, code)
    } else {
        put_steps(out, code)
    }?;
    Ok(())
}

fn put_part(out: &mut String, plan: &Plan, what: &str) -> Result<(), AllocError> {
    let conditions = &plan.clocks.conditions;
    match what {
        "order" => write!(out, "{:?}", plan.order.as_slice()),
        "conditions" => write!(out, "{:?}", conditions.as_slice()),
        "links" => write!(out, "{:?}", plan.links.as_slice()),
        "operations" => put_operations(out, plan),
        _ => write!(
            out,
            "{} operations, {} conditions",
            plan.order.len(),
            conditions.len()
        ),
    }
}

/// Adds what each operation does and writes.
fn put_operations(out: &mut String, plan: &Plan) -> Result<(), AllocError> {
    for op in &plan.ops {
        write!(out, "{:?} {:?}\n", op.kind, op.writes)?;
    }
    Ok(())
}
