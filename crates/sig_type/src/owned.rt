//! Programs that are checked and given back.

ghost use Rattle.std.specs.Prelude.{◌≡◌};
ghost use Rattle.sig_type.specs.Prelude.{IfOk, IfErr, MatchOption, ⊤, program_of, IsFirstOffence};
ghost use Rattle.sig_type.specs.Answers.{offence_of};

use crate::answer::TypeAnswer;
use crate::well_formed::check;
use sig_kinds::kinds_of;
use sig_scope::Typed;
use sig_tree::Program;
use std::alloc::Global;

/// Checks a program as `check` does, and gives it back in either case: with the kinds of its
/// expressions, or with the answer.
pub fn check_owned(alloc: Global, program: Program) -> Result<Typed, (Program, TypeAnswer)>
    ensures same { IfOk result (λ typed. typed.program ≡ program) }
    ensures back { IfErr result (λ refusal. refusal.0 ≡ program) }
    ensures refused { IfErr result (λ refusal. MatchOption (offence_of refusal.1) ⊤ (IsFirstOffence (program_of program))) }
{
    if let Err(answer) = check(alloc, &program) {
        return Err((program, answer));
    }
    match kinds_of(alloc, &program) {
        Ok(kinds) => Ok(Typed { program, kinds }),
        Err(_) => Err((program, TypeAnswer::OutOfMemory)),
    }
}
