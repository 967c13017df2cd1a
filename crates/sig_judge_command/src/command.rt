//! The command `judge`: from the names of a program file and a trace file to a status.

ghost use Rattle.std.specs.Prelude.{IfErr, IfOk};
ghost use Rattle.sig_outcome.specs.Tasks.{Performs, Reaches, SaysLine, Stops};
ghost use Rattle.sig_judge_command.specs.Judging.{judged, judging};

use crate::load::{load_flat, load_trace};
use crate::verdict::put_verdict;
use sig_judge::{Verdict, judge};
use sig_outcome::{Refusal, refuse};
use sig_text::{Files, Sink};
use std::alloc::Global;

/// Tells whether the trace that a file holds is one of the program that another file holds.
pub fn judge_command<F: Files, S: Sink, E: Sink>(
    alloc: Global,
    program: &str,
    traces: &str,
    files: &mut F,
    out: &mut S,
    err: &mut E,
) -> u8
    ensures { Performs (judging program.now traces.now)
        (F.contents files.old) (F.at files.old) (F.at files.new)
        (F.misses files.old) (F.misses files.new) (F.faults files.old) (F.faults files.new)
        S.took out.old out.new (S.faults out.old) (S.faults out.new) (S.clean out.new)
        (SaysLine E.took (E.faults err.old) (E.faults err.new) err.old err.new) result }
{
    match verdict_of(alloc, files, program, traces) {
        Ok(verdict) => put_verdict(verdict, out, err),
        Err(refusal) => refuse(&refusal, err),
    }
}

/// The verdict on the trace of a file by the program of another. The trace file is asked for behind a
/// program that is good.
fn verdict_of<'a, F: Files>(
    alloc: Global,
    files: &mut F,
    program: &'a str,
    traces: &'a str,
) -> Result<Verdict, Refusal<'a>>
    ensures verdict { IfOk result (λ verdict. Reaches (judging program.now traces.now)
        (F.contents files.old) (F.at files.old) (F.at files.new) (judged verdict traces.now)) }
    ensures stops { IfErr result (Stops (judging program.now traces.now)
        (F.contents files.old) (F.at files.old) (F.at files.new)
        (F.misses files.old) (F.misses files.new) (F.faults files.old) (F.faults files.new)) }
{
    let flat = load_flat(alloc, files, program)?;
    let trace = load_trace(alloc, files, traces, &flat)?;
    match judge(alloc, &flat, &trace) {
        Ok(verdict) => Ok(verdict),
        Err(_) => Err(Refusal::OutOfMemory),
    }
}
