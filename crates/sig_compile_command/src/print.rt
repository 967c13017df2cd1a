//! The command `print`: from the name of a program file to a status.

ghost use Rattle.std.specs.Prelude.{◌≤◌};
ghost use Rattle.sig_compile_command.specs.Prelude.{IfErr, IfOk, length, IsText, program_of, done, IsOfProgram, Performs, Reaches, SaysLine, Stops};
ghost use Rattle.sig_compile_command.specs.Printing.{IsPrintedText, RefusesText, printing};

use sig_base::limits::PROGRAM_BYTES;
use sig_front::{FrontAnswer, tree};
use sig_outcome::{Refusal, put_due, read_program, refuse, refused_program};
use sig_print::print;
use sig_text::{Files, Sink};
use sig_tree::Program;
use std::alloc::Global;

/// Writes the canonical text of the program that the file of this name holds.
pub fn print_command<F: Files, S: Sink, E: Sink>(
    alloc: Global,
    program: &str,
    files: &mut F,
    out: &mut S,
    err: &mut E,
) -> u8
    ensures { Performs (printing program.now)
        (F.contents files.old) (F.at files.old) (F.at files.new)
        (F.misses files.old) (F.misses files.new) (F.faults files.old) (F.faults files.new)
        S.took out.old out.new (S.faults out.old) (S.faults out.new) (S.clean out.new)
        (SaysLine E.took (E.faults err.old) (E.faults err.new) err.old err.new) result }
{
    match canonical(alloc, files, program) {
        Ok(text) => put_due(&text, out, err),
        Err(refusal) => refuse(&refusal, err),
    }
}

/// The canonical text of the program that the file of this name holds.
fn canonical<'a, F: Files>(
    alloc: Global,
    files: &mut F,
    name: &'a str,
) -> Result<Vec<u8>, Refusal<'a>>
    ensures text { IfOk result (λ text. Reaches (printing name.now)
        (F.contents files.old) (F.at files.old) (F.at files.new) (done text.items name.now)) }
    ensures stops { IfErr result (Stops (printing name.now)
        (F.contents files.old) (F.at files.old) (F.at files.new)
        (F.misses files.old) (F.misses files.new) (F.faults files.old) (F.faults files.new)) }
{
    let bytes = read_program(alloc, files, name)?;
    canonical_of(alloc, &bytes)
}

/// The canonical text of the program that some bytes are.
fn canonical_of<'a>(alloc: Global, bytes: &[u8]) -> Result<Vec<u8>, Refusal<'a>>
    requires short { length bytes.now ≤ PROGRAM_BYTES }
    ensures text { IfOk result (λ text. IsPrintedText bytes.now text.items) }
    ensures refused { IfErr result (IsOfProgram (RefusesText bytes.now) (λ nodes. ⊥)) }
{
    let program = tree_of(alloc, bytes)?;
    match print(alloc, &program) {
        Ok(text) => Ok(text),
        Err(_) => Err(Refusal::OutOfMemory),
    }
}

/// The tree of the program that some bytes are.
fn tree_of<'a>(alloc: Global, bytes: &[u8]) -> Result<Program, Refusal<'a>>
    requires short { length bytes.now ≤ PROGRAM_BYTES }
    ensures tree { IfOk result (λ program. IsText bytes.now (program_of program)) }
    ensures refused { IfErr result (IsOfProgram (RefusesText bytes.now) (λ nodes. ⊥)) }
{
    match tree(alloc, bytes) {
        Ok(program) => Ok(program),
        Err(FrontAnswer::OutOfMemory) => Err(Refusal::OutOfMemory),
        Err(answer) => Err(refused_program(alloc, &answer)),
    }
}
