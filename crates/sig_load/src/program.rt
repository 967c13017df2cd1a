//! The generated program.

ghost use Rattle.std.specs.Prelude.{◌≡◌, ◌≤◌, ◌++◌, IfOk, OnOk};
ghost use Rattle.sig_load.specs.inner.Pieces.{Appends, each};
ghost use Rattle.sig_load.specs.Program.{before, clock, cluster, clusters, further, interface, listed, locals, merge, program, sample, stage};

use crate::answer::LoadAnswer;
use crate::pieces::{put, put_name, put_number};
use std::alloc::{AllocError, Global};

/// Appends a name of a list of names.
fn put_listed(text: &mut Vec<u8>, letter: u8, number: u32) -> Result<(), AllocError>
    ensures { OnOk result (Appends text.old.items (listed letter number) text.new.items) }
{
    if number != 1 {
        put(text, b", ")?;
    }
    put_name(text, letter, number)
}

/// Appends a list of names with a letter.
fn put_list(text: &mut Vec<u8>, letter: u8, stages: u32) -> Result<(), AllocError>
    ensures { OnOk result (Appends text.old.items (each (listed letter) stages) text.new.items) }
{
    for before in 0..stages {
        put_listed(text, letter, before + 1)?;
    }
    Ok(())
}

/// Appends the interface.
fn put_interface(text: &mut Vec<u8>, stages: u32) -> Result<(), AllocError>
    ensures { OnOk result (Appends text.old.items (interface stages) text.new.items) }
{
    put(text, b"process LOAD = (? integer A; boolean ")?;
    put_list(text, b'B', stages)?;
    put(text, b" ! integer ")?;
    put_name(text, b'Y', stages)?;
    put(text, b")\n")
}

/// Appends the pragma that puts the two signals of a stage into a cluster.
fn put_cluster(text: &mut Vec<u8>, number: u32) -> Result<(), AllocError>
    ensures { OnOk result (Appends text.old.items (cluster number) text.new.items) }
{
    put(text, b"RunOn {")?;
    put_name(text, b'X', number)?;
    put(text, b", ")?;
    put_name(text, b'Y', number)?;
    put(text, b"} \"")?;
    put_number(text, u64::from(number % 4))?;
    put(text, b"\"\n")
}

/// Appends the pragmas.
fn put_clusters(text: &mut Vec<u8>, stages: u32) -> Result<(), AllocError>
    ensures { OnOk result (Appends text.old.items (clusters stages) text.new.items) }
{
    put(text, b"pragmas\n")?;
    for before in 0..stages {
        put_cluster(text, before + 1)?;
    }
    put(text, b"end pragmas\n")
}

/// Appends the name of a signal of the stage before this one.
fn put_before(text: &mut Vec<u8>, letter: u8, number: u32) -> Result<(), AllocError>
    requires { 1 ≤ number }
    ensures { OnOk result (Appends text.old.items (before letter number) text.new.items) }
{
    if number == 1 {
        put(text, b"A")
    } else {
        put_name(text, letter, number - 1)
    }
}

/// Appends the equation of the clock of a stage's condition.
fn put_clock(text: &mut Vec<u8>, number: u32) -> Result<(), AllocError>
    requires { 1 ≤ number }
    ensures { OnOk result (Appends text.old.items (clock number) text.new.items) }
{
    if number == 1 {
        put(text, b"(| ")?;
    } else {
        put(text, b" | ")?;
    }
    put_name(text, b'B', number)?;
    put(text, b" ^= ")?;
    put_before(text, b'X', number)?;
    put(text, b"\n")
}

/// Appends the equation that samples a stage's signal by its condition.
fn put_sample(text: &mut Vec<u8>, number: u32) -> Result<(), AllocError>
    requires { 1 ≤ number }
    ensures { OnOk result (Appends text.old.items (sample number) text.new.items) }
{
    put(text, b" | ")?;
    put_name(text, b'X', number)?;
    put(text, b" := (")?;
    put_before(text, b'X', number)?;
    put(text, b" + ")?;
    put_number(text, u64::from(number))?;
    put(text, b") when ")?;
    put_name(text, b'B', number)?;
    put(text, b"\n")
}

/// Appends the equation that merges a stage's signal with the merge before it.
fn put_merge(text: &mut Vec<u8>, number: u32) -> Result<(), AllocError>
    requires { 1 ≤ number }
    ensures { OnOk result (Appends text.old.items (merge number) text.new.items) }
{
    put(text, b" | ")?;
    put_name(text, b'Y', number)?;
    put(text, b" := ")?;
    put_name(text, b'X', number)?;
    put(text, b" default ")?;
    put_before(text, b'Y', number)?;
    put(text, b"\n")
}

/// Appends the three equations of a stage.
fn put_stage(text: &mut Vec<u8>, number: u32) -> Result<(), AllocError>
    requires { 1 ≤ number }
    ensures { OnOk result (Appends text.old.items (stage number) text.new.items) }
{
    put_clock(text, number)?;
    put_sample(text, number)?;
    put_merge(text, number)
}

/// Appends the equations.
fn put_stages(text: &mut Vec<u8>, stages: u32) -> Result<(), AllocError>
    ensures { OnOk result (Appends text.old.items (each stage stages) text.new.items) }
{
    for before in 0..stages {
        put_stage(text, before + 1)?;
    }
    Ok(())
}

/// Appends each merged signal but the last, with a comma before it.
fn put_further(text: &mut Vec<u8>, count: u32) -> Result<(), AllocError>
    ensures { OnOk result (Appends text.old.items (each further count) text.new.items) }
{
    for before in 0..count {
        put(text, b", ")?;
        put_name(text, b'Y', before + 1)?;
    }
    Ok(())
}

/// Appends the end of the equations, and the local signals.
fn put_locals(text: &mut Vec<u8>, stages: u32) -> Result<(), AllocError>
    requires { 1 ≤ stages }
    ensures { OnOk result (Appends text.old.items (locals stages) text.new.items) }
{
    put(text, b" |)\nwhere integer ")?;
    put_list(text, b'X', stages)?;
    put_further(text, stages - 1)?;
    put(text, b"; end;\n")
}

/// The text of the program of so many stages: `LOAD`, with the integer input `A`, a condition for
/// each stage and the last stage's merged signal as its output. Only memory can be wanting.
pub fn program_text(alloc: Global, stages: u32) -> Result<Vec<u8>, LoadAnswer>
    requires least { 1 ≤ stages }
    requires most { stages ≤ 12 }
    ensures { IfOk result (λ text. text.items ≡ program stages) }
{
    let mut text = Vec::new(alloc);
    put_interface(&mut text, stages)?;
    put_clusters(&mut text, stages)?;
    put_stages(&mut text, stages)?;
    put_locals(&mut text, stages)?;
    Ok(text)
}
