//! The flat body of a program.

ghost use Rattle.std.specs.Prelude.{◌≡◌, ◌≤◌};
ghost use Rattle.sig_call.specs.Prelude.{length, IfOk, program_of, flat_body_of, IsFlatBody, IsWellFormed, IsTree};
ghost use Rattle.sig_call.specs.Making.{IsRefused, NeedsTooMany};

use crate::answer::CallAnswer;
use crate::calls::expand;
use crate::copy::ProcessCopy;
use crate::expansion::Expansion;
use sig_base::Text;
use sig_scope::{Processes, Typed, flat_equations};
use sig_tree::{Flat, Program};
use std::alloc::Global;

/// The flat body of a well-formed program. `TooManySignals` is answered where it needs more than 512
/// signals, those of copies included.
pub fn inline(alloc: Global, typed: &Typed) -> Result<Flat, CallAnswer>
    requires { IsTree (program_of typed.now.program) }
    ensures flat { IfOk result (λ flat. IsFlatBody (program_of typed.now.program) (flat_body_of flat)) }
    ensures few { IfOk result (λ flat. length flat.signals.items ≤ 512) }
    ensures refused { IsRefused result (NeedsTooMany (program_of typed.now.program)) }
{
    inline_program(alloc, &typed.program)
}

/// The same of a program by itself.
fn inline_program(alloc: Global, program: &Program) -> Result<Flat, CallAnswer>
    requires tree { IsTree (program_of program.now) }
    requires well_formed { IsWellFormed (program_of program.now) }
    ensures flat { IfOk result (λ flat. IsFlatBody (program_of program.now) (flat_body_of flat)) }
    ensures few { IfOk result (λ flat. length flat.signals.items ≤ 512) }
    ensures refused { IsRefused result (NeedsTooMany (program_of program.now)) }
{
    let processes = Processes::new(alloc, program)?;
    let Some(first) = processes.as_slice().first() else {
        unreachable!()
    };
    let mut expansion = Expansion::new(alloc);
    expansion.add_signals(alloc, b"", 0, first)?;
    let copy = ProcessCopy::new(alloc, Text::from_bytes(alloc, b"")?, 0, &[], first)?;
    let equations = flat_equations(alloc, &first.process.body)?;
    expand(&mut expansion, alloc, &processes, &copy, &equations)?;
    Ok(expansion.finish(first.inputs.len() as u32, first.outputs.len() as u32))
}
