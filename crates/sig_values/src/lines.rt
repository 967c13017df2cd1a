//! The text of an instant.

ghost use Rattle.std.specs.Prelude.{◌≡◌, ◌≤◌, ◌<◌, ◌+◌, ◌++◌};
ghost use Rattle.sig_values.specs.Prelude.{ℕ, OnErr, OnOk, length, longest_line, longest_lines, seen_line, seen_lines, Instant, Rose, TookPrefix};
ghost use Rattle.sig_values.specs.Lines.{TellsInstant};

use sig_base::Signal;
use sig_flow::OutputLines;
use sig_text::{Sink, WriteFault, put_all};

/// Appends the lines of the outputs that are present in an instant, in their order; where a write fails, a prefix of them. What
/// the output at a place is, a closure tells. The lines are made from the last one to the first where all of them have room,
/// and the sink is given them at once. It takes no memory.
#[inline(never)]
pub fn put_instant<S: Sink, F: Fn(usize) -> Option<i64>>(
    outputs: &[Signal],
    seen: F,
    lines: &mut OutputLines,
    sink: &mut S,
) -> Result<(), WriteFault>
    requires told { (place : ℕ) → place < length outputs.now → F.pre seen place }
    requires room { longest_lines outputs.now ≤ lines.old.size }
    ensures size { lines.new.size ≡ lines.old.size }
    ensures all { (instant : Instant) → TellsInstant (F.post seen) outputs.now instant
        → OnOk result (S.took sink.old (seen_lines outputs.now instant) sink.new) }
    ensures prefix { (instant : Instant) → TellsInstant (F.post seen) outputs.now instant
        → OnErr result (TookPrefix S.took sink.old (seen_lines outputs.now instant) sink.new) }
    ensures failed { OnErr result (Rose (S.faults sink.old) (S.faults sink.new)) }
    ensures faults_stay { S.faults sink.old ≤ S.faults sink.new }
{
    lines.clear();
    for place in (0..outputs.len()).rev() {
        put_seen(&outputs[place], seen(place), lines);
    }
    put_all(sink, lines.as_bytes())
}

/// Puts the line of a signal in front, where it is present.
#[inline(always)]
fn put_seen(signal: &Signal, seen: Option<i64>, lines: &mut OutputLines)
    requires { length lines.old.text + longest_line signal.now ≤ lines.old.size }
    ensures size { lines.new.size ≡ lines.old.size }
    ensures text { lines.new.text ≡ seen_line signal.now seen ++ lines.old.text }
    ensures longest { length lines.new.text ≤ length lines.old.text + longest_line signal.now }
{
    if let Some(value) = seen {
        lines.put_in_front(signal, value);
    }
}
