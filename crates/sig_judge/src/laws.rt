//! Laws of judging.

ghost use Rattle.std.specs.Prelude.{◌⊎◌, ℕ, List};
ghost use Rattle.sig_base.specs.declared.signal.Signal.{Signal};
ghost use Rattle.sig_judge.specs.Prelude.{FlatBody, IsTraceOf, Trace};
ghost use Rattle.sig_judge.specs.TraceFiles.{IsFirstBadPlace, IsTraceFile};
ghost use Rattle.sig_judge.specs.Verdicts.{IsVerdict};
ghost use Rattle.sig_judge.specs.declared.trace_answer.TraceAnswer.{TraceAnswer};
ghost use Rattle.sig_judge.specs.declared.verdict.Verdict.{Verdict};

use sig_base::functions_give_one_value;

/// A law: every trace of a flat body's signals has a verdict, and any bytes are a trace file of signals or have
/// a first place that offends.
pub fn traces_have_a_verdict()
    ensures verdict { (flat : FlatBody) (trace : Trace) → IsTraceOf flat.signals trace → (verdict : Verdict) × IsVerdict flat trace verdict }
    ensures file { (signals : List Signal) (bytes : List ℕ) → ((trace : Trace) × IsTraceFile signals bytes trace)
        ⊎ ((answer : TraceAnswer) × IsFirstBadPlace signals bytes answer) }
{
    functions_give_one_value();
}
