//! Reading the files of a program and of a trace.

ghost use Rattle.std.specs.Prelude.{◌≡◌, ◌≢◌, ◌≤◌, ◌<◌, ◌^◌, Some, IfErr, IfOk, IfSome, bytes_eq, length, map};
ghost use Rattle.std.specs.List.{IsDistinct};
ghost use Rattle.sig_front.specs.Flats.{IsFlatText};
ghost use Rattle.sig_judge.specs.TraceFiles.{IsTraceFile};
ghost use Rattle.sig_tree.specs.FlatSyntax.{flat_body_of};
ghost use Rattle.sig_tree.specs.ProcessTraces.{IsTraceOf};
ghost use Rattle.sig_outcome.specs.Outcomes.{Good};
ghost use Rattle.sig_outcome.specs.Reading.{Reads};
ghost use Rattle.sig_outcome.specs.Refusals.{HasCount, IsOfData, IsOfProgram, IsOwn, outcome_of};
ghost use Rattle.sig_judge_command.specs.Judging.{AtFlat, AtTrace, FindsFlat, FindsTrace, IsAboutFlat, IsAboutTrace, RefusesFlat, RefusesTrace, bad_trace};

use sig_base::limits::{FLOW_BYTES, PROGRAM_BYTES, VALUES};
use sig_front::{FrontAnswer, flat};
use sig_judge::{Trace, TraceAnswer, read_trace};
use sig_outcome::{Refusal, read_data, read_program, refused_program};
use sig_text::Files;
use sig_tree::Flat;
use std::alloc::{AllocError, Global};

/// The flat body of the program that the file of this name holds.
pub fn load_flat<'a, F: Files>(
    alloc: Global,
    files: &mut F,
    name: &'a str,
) -> Result<Flat, Refusal<'a>>
    ensures flat { IfSome (F.contents files.old) (λ held.
        IfOk result (λ flat. FindsFlat (held name.now) (Good (flat_body_of flat)))) }
    ensures names { IfOk result (λ flat. IsDistinct bytes_eq (map (λ signal. signal.name) flat.signals.items)) }
    ensures small { IfOk result (λ flat. length flat.body.items < 2 ^ 30) }
    ensures refused { IfSome (F.contents files.old) (λ held. IfErr result (λ refusal.
        IsOwn refusal (F.faults files.old) (F.faults files.new) →
        AtFlat held name.now (λ _ _. ⊥) (outcome_of refusal (Some name.now)))) }
    ensures about { IfErr result (IsAboutFlat name.now) }
    ensures counted { IfErr result (HasCount (F.contents files.old) (F.at files.new)
        (F.misses files.old) (F.misses files.new) (F.faults files.old) (F.faults files.new)) }
    ensures read { Reads (F.contents files.old) (F.contents files.new) (F.at files.new)
        (F.misses files.old) (F.misses files.new) (F.faults files.old) (F.faults files.new) name.now }
{
    let bytes = read_program(alloc, files, name)?;
    flat_of(alloc, &bytes)
}

/// The flat body of the program that a text is.
fn flat_of<'a>(alloc: Global, bytes: &[u8]) -> Result<Flat, Refusal<'a>>
    requires short { length bytes.now ≤ PROGRAM_BYTES }
    ensures flat { IfOk result (λ flat. IsFlatText bytes.now (flat_body_of flat)) }
    ensures names { IfOk result (λ flat. IsDistinct bytes_eq (map (λ signal. signal.name) flat.signals.items)) }
    ensures small { IfOk result (λ flat. length flat.body.items < 2 ^ 30) }
    ensures refused { IfErr result (IsOfProgram (λ line. RefusesFlat bytes.now line) (λ nodes. ⊥)) }
{
    match flat(alloc, bytes) {
        Ok(flat) => Ok(flat),
        Err(FrontAnswer::OutOfMemory) => Err(Refusal::OutOfMemory),
        Err(answer) => Err(refused_program(alloc, &answer)),
    }
}

/// The trace of a flat body's signals that the file of this name holds.
pub fn load_trace<'a, F: Files>(
    alloc: Global,
    files: &mut F,
    name: &'a str,
    flat: &Flat,
) -> Result<Trace, Refusal<'a>>
    requires differ { IsDistinct bytes_eq (map (λ signal. signal.name) flat.now.signals.items) }
    ensures trace { IfSome (F.contents files.old) (λ held. IfOk result (λ trace.
        FindsTrace (held name.now) name.now flat.now.signals.items (Good trace.rows.items))) }
    ensures kinds { IfOk result (λ trace. IsTraceOf flat.now.signals.items trace.rows.items) }
    ensures few { IfOk result (λ trace. length trace.rows.items ≤ VALUES) }
    ensures refused { IfSome (F.contents files.old) (λ held. IfErr result (λ refusal.
        IsOwn refusal (F.faults files.old) (F.faults files.new) →
        AtTrace held name.now flat.now.signals.items (λ _ _. ⊥) (outcome_of refusal (Some name.now)))) }
    ensures about { IfErr result (IsAboutTrace name.now) }
    ensures counted { IfErr result (HasCount (F.contents files.old) (F.at files.new)
        (F.misses files.old) (F.misses files.new) (F.faults files.old) (F.faults files.new)) }
    ensures read { Reads (F.contents files.old) (F.contents files.new) (F.at files.new)
        (F.misses files.old) (F.misses files.new) (F.faults files.old) (F.faults files.new) name.now }
{
    let bytes = read_data(alloc, files, name)?;
    trace_of(alloc, &bytes, name, flat)
}

/// The trace of a flat body's signals that the bytes of the file of this name are.
fn trace_of<'a>(alloc: Global, bytes: &[u8], name: &str, flat: &Flat) -> Result<Trace, Refusal<'a>>
    requires short { length bytes.now ≤ FLOW_BYTES }
    requires differ { IsDistinct bytes_eq (map (λ signal. signal.name) flat.now.signals.items) }
    ensures trace { IfOk result (λ trace. IsTraceFile flat.now.signals.items bytes.now trace.rows.items) }
    ensures kinds { IfOk result (λ trace. IsTraceOf flat.now.signals.items trace.rows.items) }
    ensures few { IfOk result (λ trace. length trace.rows.items ≤ VALUES) }
    ensures refused { IfErr result (IsOfData (λ line. RefusesTrace name.now flat.now.signals.items bytes.now line)) }
{
    match read_trace(alloc, bytes, flat) {
        Ok(trace) => Ok(trace),
        Err(answer) => Err(refused_trace(alloc, name, answer)),
    }
}

/// The refusal of a trace file by an answer, or want of memory for its line.
fn refused_trace<'a>(alloc: Global, name: &str, answer: TraceAnswer) -> Refusal<'a>
    ensures { IsOfData (λ line. (answer ≢ TraceAnswer.OutOfMemory) × (line ≡ bad_trace name.now answer)) result }
{
    match answer {
        TraceAnswer::OutOfMemory => Refusal::OutOfMemory,
        _ => match format!(in alloc; "error: {name}:{answer}") {
            Ok(line) => Refusal::Data(line),
            Err(AllocError) => Refusal::OutOfMemory,
        },
    }
}
