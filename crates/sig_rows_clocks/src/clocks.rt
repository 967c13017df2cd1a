//! The clocks of kernels, their hierarchies and their paces.

ghost use Rattle.std.specs.Prelude.{◌≤◌, length};
ghost use Rattle.sig_hier.specs.Trees.{HaveKernel};
ghost use Rattle.sig_kernel.specs.Validity.{IsValid};

use anyhow::{Result, bail};
use sig_clock::Clocks;
use sig_dd::Store;
use sig_hier::{tree, tree_text};
use sig_kernel::Kernel;
use sig_pace::pace;
use sig_rows_base::written;
use sig_solve::solve;
use std::alloc::{AllocError, Global};
use std::fmt::Write;

/// Adds the classes of the signals, the layers of the classes, the conditions and how many guards there are, or the
/// refusal; in place of the clocks the parents of the classes and the text of their hierarchy, where these are asked
/// for.
pub(crate) fn write_clocks(
    alloc: Global,
    out: &mut String,
    kernel: &Kernel,
    store: &mut Store,
    is_tree: bool,
) -> Result<()>
    requires { IsValid kernel.now }
    ensures { length store.old.nodes ≤ length store.new.nodes }
{
    match solve(alloc, kernel, store) {
        Ok(clocks) if is_tree => write_tree(alloc, out, kernel, &clocks, store),
        Ok(clocks) => Ok(write_classes(out, &clocks)?),
        Err(answer) => Ok(write!(out, "{answer:?}")?),
    }
}

fn write_classes(out: &mut String, clocks: &Clocks) -> Result<(), AllocError> {
    write!(
        out,
        "{:?} {:?} {:?} {}",
        clocks.class_of,
        clocks.layer,
        clocks.conditions,
        clocks.guard.len()
    )
}

fn write_tree(
    alloc: Global,
    out: &mut String,
    kernel: &Kernel,
    clocks: &Clocks,
    store: &Store,
) -> Result<()>
    requires { HaveKernel store.now.nodes clocks.now }
{
    let tree = tree(alloc, clocks, store)?;
    let text = tree_text(alloc, kernel, clocks, &tree)?;
    let text = str::from_utf8(text.as_slice())?;
    Ok(write!(out, "{:?}\n{text}", tree.parent)?)
}

/// Adds how many inputs, outputs, declared signals, signals and equations the kernel with its paces has, the inputs'
/// names and the last equation; or the refusal.
pub(crate) fn write_paced(
    alloc: Global,
    out: &mut String,
    kernel: Kernel,
    store: &mut Store,
) -> Result<()>
    requires { IsValid kernel }
    ensures { length store.old.nodes ≤ length store.new.nodes }
{
    if kernel.equations.as_slice().len() > 1_000 {
        bail!("there are too many equations");
    }
    match pace(alloc, kernel, store) {
        Ok(kernel) => write_kernel(out, &kernel),
        Err(answer) => write!(out, "{answer:?}"),
    }?;
    Ok(())
}

fn write_kernel(out: &mut String, kernel: &Kernel) -> Result<(), AllocError> {
    let (signals, equations) = (kernel.signals.as_slice(), kernel.equations.as_slice());
    write!(
        out,
        "{} {} {} {} {}:",
        kernel.inputs,
        kernel.outputs,
        kernel.declared,
        signals.len(),
        equations.len()
    )?;
    for input in kernel.inputs() {
        write!(out, " {}", written(&input.name))?;
    }
    match equations.last() {
        Some(last) => write!(out, " {:?}", last.form),
        None => Ok(()),
    }
}
