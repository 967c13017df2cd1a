//! The commands `check`, `tree` and `code`: from the name of a program file to a status.

ghost use Rattle.std.specs.Prelude.{◌≤◌};
ghost use Rattle.sig_compile_command.specs.Prelude.{IfErr, IfOk, length, done, IsOfProgram, Performs, Reaches, SaysLine, Stops};
ghost use Rattle.sig_program.specs.Acceptance.{AreRefused};
ghost use Rattle.sig_program.specs.Programs.{LacksNodes};
ghost use Rattle.sig_compile_command.specs.Compiling.{IsProductText, compiling};

use crate::product::Product;
use sig_base::limits::PROGRAM_BYTES;
use sig_outcome::{Refusal, put_due, read_program, refuse};
use sig_program::plan_of;
use sig_text::{Files, Sink};
use std::alloc::{AllocError, Global};

/// Writes a product of the program that the file of this name holds, with paces where they are asked for.
pub fn compile_command<F: Files, S: Sink, E: Sink>(
    alloc: Global,
    product: Product,
    program: &str,
    pace: bool,
    files: &mut F,
    out: &mut S,
    err: &mut E,
) -> u8
    ensures { Performs (compiling product pace program.now)
        (F.contents files.old) (F.at files.old) (F.at files.new)
        (F.misses files.old) (F.misses files.new) (F.faults files.old) (F.faults files.new)
        S.took out.old out.new (S.faults out.old) (S.faults out.new) (S.clean out.new)
        (SaysLine E.took (E.faults err.old) (E.faults err.new) err.old err.new) result }
{
    match compiled(alloc, product, files, program, pace) {
        Ok(text) => put_due(&text, out, err),
        Err(refusal) => refuse(&refusal, err),
    }
}

/// The text of a product of the program that the file of this name holds.
fn compiled<'a, F: Files>(
    alloc: Global,
    product: Product,
    files: &mut F,
    name: &'a str,
    pace: bool,
) -> Result<Vec<u8>, Refusal<'a>>
    ensures text { IfOk result (λ text. Reaches (compiling product pace name.now)
        (F.contents files.old) (F.at files.old) (F.at files.new) (done text.items name.now)) }
    ensures stops { IfErr result (Stops (compiling product pace name.now)
        (F.contents files.old) (F.at files.old) (F.at files.new)
        (F.misses files.old) (F.misses files.new) (F.faults files.old) (F.faults files.new)) }
{
    let bytes = read_program(alloc, files, name)?;
    product_of(alloc, product, &bytes, pace)
}

/// The text of a product of the program that some bytes are.
fn product_of<'a>(
    alloc: Global,
    product: Product,
    bytes: &[u8],
    pace: bool,
) -> Result<Vec<u8>, Refusal<'a>>
    requires short { length bytes.now ≤ PROGRAM_BYTES }
    ensures text { IfOk result (λ text. IsProductText product pace bytes.now text.items) }
    ensures refused { IfErr result (IsOfProgram (AreRefused pace bytes.now) (LacksNodes pace bytes.now)) }
{
    let plan = plan_of(alloc, bytes, pace)?;
    match product.text(alloc, &plan) {
        Ok(text) => Ok(text),
        Err(AllocError) => Err(Refusal::OutOfMemory),
    }
}
