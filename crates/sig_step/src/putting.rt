//! The text of a reaction.

ghost use Rattle.std.specs.Prelude.{◌≡◌, ◌≤◌, ◌<◌};
ghost use Rattle.sig_step.specs.Prelude.{OnErr, OnOk, length, line_at, longest_lines, outputs_of, seen_lines, Rose, TookPrefix, last_in};
ghost use Rattle.sig_step.specs.States.{last_reaction};

use crate::plans::kernel_of;
use crate::state::ClusterState;
use sig_base::SigId;
use sig_flow::{OutputLines, put_value};
use sig_kernel::Kernel;
use sig_plan::Plan;
use sig_text::{Sink, WriteFault};
use sig_values::put_reaction;

impl ClusterState {
    /// Appends the text of the reaction that the collector committed in its last step; where a write fails,
    /// a prefix of it. It takes no memory.
    pub fn put_reaction<S: Sink>(&self, plan: &Plan, sink: &mut S) -> Result<(), WriteFault>
        ensures all { OnOk result (S.took sink.old (seen_lines (outputs_of plan.now.kernel) (last_reaction plan.now.kernel self.now)) sink.new) }
        ensures prefix { OnErr result (TookPrefix S.took sink.old (seen_lines (outputs_of plan.now.kernel) (last_reaction plan.now.kernel self.now)) sink.new) }
        ensures failed { OnErr result (Rose (S.faults sink.old) (S.faults sink.new)) }
        ensures faults_stay { S.faults sink.old ≤ S.faults sink.new }
    {
        let kernel = kernel_of(plan);
        for output in 0..kernel.outputs {
            self.put_signal(kernel, kernel.inputs + output, sink)?;
        }
        Ok(())
    }

    /// Appends the line of a signal, where it was present in the instant before.
    fn put_signal<S: Sink>(
        &self,
        kernel: &Kernel,
        number: u32,
        sink: &mut S,
    ) -> Result<(), WriteFault>
        requires { number < length kernel.now.signals }
        ensures all { OnOk result (S.took sink.old (line_at kernel.now (last_in self.now.values) number) sink.new) }
        ensures prefix { OnErr result (TookPrefix S.took sink.old (line_at kernel.now (last_in self.now.values) number) sink.new) }
        ensures failed { OnErr result (Rose (S.faults sink.old) (S.faults sink.new)) }
        ensures faults_stay { S.faults sink.old ≤ S.faults sink.new }
    {
        let signal = &kernel.signals.as_slice()[number as usize];
        match self.values.last_seen(SigId(number)) {
            Some(value) => put_value(sink, &signal.name, signal.kind, value),
            None => Ok(()),
        }
    }

    /// The same by lines in which those of all outputs have room: the sink is given the whole text at once.
    pub fn put_reaction_at_once<S: Sink>(
        &self,
        plan: &Plan,
        lines: &mut OutputLines,
        sink: &mut S,
    ) -> Result<(), WriteFault>
        requires { longest_lines (outputs_of plan.now.kernel) ≤ lines.old.size }
        ensures size { lines.new.size ≡ lines.old.size }
        ensures all { OnOk result (S.took sink.old (seen_lines (outputs_of plan.now.kernel) (last_reaction plan.now.kernel self.now)) sink.new) }
        ensures prefix { OnErr result (TookPrefix S.took sink.old (seen_lines (outputs_of plan.now.kernel) (last_reaction plan.now.kernel self.now)) sink.new) }
        ensures failed { OnErr result (Rose (S.faults sink.old) (S.faults sink.new)) }
        ensures faults_stay { S.faults sink.old ≤ S.faults sink.new }
    {
        let seen = |number: u32| -> Option<i64>
            ensures { result ≡ last_in self.entry.now.values number }
        { self.values.last_seen(SigId(number)) };
        put_reaction(plan, seen, lines, sink)
    }
}
