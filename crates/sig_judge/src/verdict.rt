//! The judge.

ghost use Rattle.std.specs.Prelude.{◌≡◌, ◌<◌, ◌^◌, ◌↔◌};
ghost use Rattle.sig_judge.specs.Prelude.{ℕ, IfOk, length, flat_body_of, IsProcessTrace, IsTraceOf};
ghost use Rattle.sig_judge.specs.Verdicts.{IsBroken, IsVerdict};

use crate::answer::JudgeAnswer;
use crate::body::{equations_of, first_broken};
use crate::trace::Trace;
use sig_tree::{Flat, equations_step, meaning_up_to_an_instant, traces_step};
use std::alloc::Global;

/// Whether a trace is one of a process, or the first instant that is none, and the first equation
/// that it does not satisfy, both counted from 1.
#[derive(Clone, Copy, Debug, PartialEq, Eq)]
pub enum Verdict {
    Accepted,
    Broken(u32, u32),
}

/// The verdict on a trace, by the meaning of expressions alone. Each instant has one entry for each
/// signal of the flat body, absent or a value of the signal's kind. It takes time in the number of
/// instants times the size of the body. Only memory can be wanting.
pub fn judge(alloc: Global, flat: &Flat, trace: &Trace) -> Result<Verdict, JudgeAnswer>
    requires kinds { IsTraceOf flat.now.signals.items trace.now.rows.items }
    requires instants { length trace.now.rows.items < 2 ^ 32 }
    requires equations { length flat.now.body.items < 2 ^ 32 }
    ensures accepted { IfOk result (λ verdict.
        (verdict ≡ Verdict.Accepted) ↔ IsProcessTrace (flat_body_of flat.now) trace.now.rows.items) }
    ensures broken { IfOk result (λ verdict. (instant equation : ℕ) →
        (verdict ≡ Verdict.Broken instant equation) ↔ IsBroken (flat_body_of flat.now) trace.now.rows.items instant equation) }
{
    meaning_up_to_an_instant();
    let verdict = verdict_on(alloc, flat, trace)?;
    Ok(verdict)
}

/// The verdict, instant by instant.
fn verdict_on(alloc: Global, flat: &Flat, trace: &Trace) -> Result<Verdict, JudgeAnswer>
    requires kinds { IsTraceOf flat.now.signals.items trace.now.rows.items }
    requires instants { length trace.now.rows.items < 2 ^ 32 }
    requires equations { length flat.now.body.items < 2 ^ 32 }
    ensures { IfOk result (IsVerdict (flat_body_of flat.now) trace.now.rows.items) }
{
    traces_step();
    equations_step();
    let mut body = equations_of(alloc, &flat.body)?;
    for (i, row) in trace.rows.iter().enumerate() {
        if let Some(e) = first_broken(&mut body, row) {
            return Ok(Verdict::Broken(i as u32 + 1, e as u32 + 1));
        }
    }
    Ok(Verdict::Accepted)
}
