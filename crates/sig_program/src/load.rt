//! Reading the file of a program, up to its plan.

ghost use Rattle.std.specs.Prelude.{◌≡◌};
ghost use Rattle.sig_program.specs.Prelude.{false, Some, IfErr, IfOk, IfSome, Good, Reads, HasCount, IsOwn, outcome_of, status_of};
ghost use Rattle.sig_program.specs.Acceptance.{HasSignalNames};
ghost use Rattle.sig_program.specs.Programs.{AtPlan, FindsAccepted, HoldsBeyondBound, IsAboutPlan};

use crate::compile::plan_of;
use sig_outcome::{Refusal, read_program};
use sig_plan::Plan;
use sig_text::Files;
use std::alloc::Global;

/// The plan of the program that the file of this name holds, with paces where they are asked for, or the
/// first refusal by its length, the passes up to the kernel, the paces and the rules of acceptance.
pub fn load_plan<'a, F: Files>(
    alloc: Global,
    files: &mut F,
    name: &'a str,
    pace: bool,
) -> Result<Plan, Refusal<'a>>
    ensures plan { IfSome (F.contents files.old) (λ held.
        IfOk result (λ plan. FindsAccepted pace (held name.now) (Good plan.kernel))) }
    ensures names { pace ≡ false → IfOk result (λ plan. HasSignalNames plan.kernel) }
    ensures refused { IfSome (F.contents files.old) (λ held. IfErr result (λ refusal.
        IsOwn refusal (F.faults files.old) (F.faults files.new) →
        AtPlan pace held name.now (λ _ _. ⊥) (outcome_of refusal (Some name.now)))) }
    ensures budget { IfSome (F.contents files.old) (λ held. IfErr result (λ refusal.
        status_of refusal ≡ 8 → HoldsBeyondBound pace (held name.now))) }
    ensures about { IfErr result (IsAboutPlan name.now) }
    ensures counted { IfErr result (HasCount (F.contents files.old) (F.at files.new)
        (F.misses files.old) (F.misses files.new) (F.faults files.old) (F.faults files.new)) }
    ensures read { Reads (F.contents files.old) (F.contents files.new) (F.at files.new)
        (F.misses files.old) (F.misses files.new) (F.faults files.old) (F.faults files.new) name.now }
{
    let bytes = read_program(alloc, files, name)?;
    plan_of(alloc, &bytes, pace)
}
