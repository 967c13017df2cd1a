//! The text of a reaction.

ghost use Rattle.std.specs.Prelude.{◌≡◌, ◌≤◌};
ghost use Rattle.sig_alone.specs.Prelude.{OnErr, OnOk, Rose, TookPrefix, longest_lines, outputs_of, registers_of};
ghost use Rattle.sig_alone.specs.inner.Due.{lines_due};

use sig_base::SigId;
use sig_flow::OutputLines;
use sig_machine::Machine;
use sig_plan::Plan;
use sig_text::{Sink, WriteFault};
use sig_values::put_reaction;

/// Appends the lines of a reaction where they are due, and nothing where they are not.
pub(crate) fn put_due<S: Sink>(
    machine: &Machine,
    plan: &Plan,
    due: bool,
    lines: &mut OutputLines,
    sink: &mut S,
) -> Result<(), WriteFault>
    requires { longest_lines (outputs_of plan.now.kernel) ≤ lines.old.size }
    ensures size { lines.new.size ≡ lines.old.size }
    ensures all { OnOk result (S.took sink.old (lines_due due plan.now.kernel (registers_of machine.now)) sink.new) }
    ensures prefix { OnErr result (TookPrefix S.took sink.old (lines_due due plan.now.kernel (registers_of machine.now)) sink.new) }
    ensures failed { OnErr result (Rose (S.faults sink.old) (S.faults sink.new)) }
    ensures faults_stay { S.faults sink.old ≤ S.faults sink.new }
{
    if !due {
        return Ok(());
    }
    let seen = |number: u32| -> Option<i64>
        ensures { result ≡ registers_of machine.entry.now number }
    { machine.seen(SigId(number)) };
    put_reaction(plan, seen, lines, sink)
}
