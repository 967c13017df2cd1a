//! Trace files.

ghost use Rattle.std.specs.Prelude.{◌≡◌, ◌≤◌, ◌⊎◌};
ghost use Rattle.sig_judge.specs.Prelude.{bytes_eq, length, map, IfOk, IfErr, IsErrAnd, MatchResult, IsDistinct, Trace as TraceSeen, IsTraceOf};
ghost use Rattle.sig_judge.specs.TraceFiles.{IsFirstBadPlace, IsTraceFile};
ghost use Rattle.sig_judge.specs.declared.trace_answer.TraceAnswer.{TraceAnswer};

use crate::header::{first_line, header_of};
use crate::row::rows_of;
use crate::trace::Trace;
use crate::trace_answer::TraceAnswer;
use sig_base::Signal;
use sig_base::limits::VALUES;
use sig_tree::Flat;
use std::alloc::Global;

/// The trace that a trace file is of the signals of a flat body, whose names differ, or the first
/// offending place of the file. The first line with words names each signal exactly once, in any
/// order; each later line with words is an instant, with one word for each name: `.` for absent, or a
/// value of the signal's kind. Only memory can be wanting besides.
pub fn read_trace(alloc: Global, bytes: &[u8], flat: &Flat) -> Result<Trace, TraceAnswer>
    requires differ { IsDistinct bytes_eq (map (λ signal. signal.name) flat.now.signals.items) }
    ensures trace { IfOk result (λ trace. IsTraceFile flat.now.signals.items bytes.now trace.rows.items) }
    ensures kinds { IfOk result (λ trace. IsTraceOf flat.now.signals.items trace.rows.items) }
    ensures few { IfOk result (λ trace. length trace.rows.items ≤ VALUES) }
    ensures fault { IfErr result (λ answer. (answer ≡ TraceAnswer.OutOfMemory)
        ⊎ IsFirstBadPlace flat.now.signals.items bytes.now answer) }

    // Where the bytes are a trace, it is given, and where a place offends, the first is named, unless
    // memory runs out.
    ensures given { (rows : TraceSeen) → IsTraceFile flat.now.signals.items bytes.now rows →
        MatchResult result (λ trace. trace.rows.items ≡ rows) (λ answer. answer ≡ TraceAnswer.OutOfMemory) }
    ensures refused { (fault : TraceAnswer) → IsFirstBadPlace flat.now.signals.items bytes.now fault →
        IsErrAnd result (λ answer. (answer ≡ TraceAnswer.OutOfMemory) ⊎ (answer ≡ fault)) }
{
    trace_of(alloc, bytes, &flat.signals)
}

/// The trace or the first offending place.
fn trace_of(alloc: Global, bytes: &[u8], signals: &[Signal]) -> Result<Trace, TraceAnswer>
    requires differ { IsDistinct bytes_eq (map (λ signal. signal.name) signals.now) }
    ensures trace { IfOk result (λ trace. IsTraceFile signals.now bytes.now trace.rows.items) }
    ensures kinds { IfOk result (λ trace. IsTraceOf signals.now trace.rows.items) }
    ensures few { IfOk result (λ trace. length trace.rows.items ≤ VALUES) }
    ensures fault { IfErr result (λ answer. (answer ≡ TraceAnswer.OutOfMemory)
        ⊎ IsFirstBadPlace signals.now bytes.now answer) }
{
    let Some(start) = first_line(bytes) else {
        return Err(TraceAnswer::BadHeader(1));
    };
    let header = header_of(alloc, start, signals)?;
    let rows = rows_of(alloc, start.rest, start.number + 1, &header)?;
    Ok(Trace { rows })
}
