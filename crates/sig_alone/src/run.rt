//! A run.

ghost use Rattle.std.specs.Prelude.{◌≡◌, ◌≤◌, ◌<◌, ◌+◌, ◌^◌};
ghost use Rattle.sig_alone.specs.Prelude.{Err, IfOk, OnErr, OnOk, AreFlowsFor, Rose, TookPrefix, IsMachineOf, actor_at, at_next, longest_lines, outputs_of, registers_of, ℕ};
ghost use Rattle.sig_alone.specs.inner.Due.{lines_due};
ghost use Rattle.sig_alone.specs.Ready.{IsReady};
ghost use Rattle.sig_alone.specs.Runs.{IsWholeRest, IsWholeRun, TookSome, TookSomeRest};
ghost use Rattle.sig_alone.specs.declared.answer.RunAnswer.{RunAnswer};

use crate::answer::RunAnswer;
use crate::gates::pass_all;
use crate::plans::plans_are_accepted;
use crate::putting::put_due;
use crate::ready::ReadyRun;
use sig_kernel::Inputs;
use sig_plan::{Cause, Ended, Plan};
use sig_text::{Gate, Sink, WriteFault};
use std::alloc::Global;

/// Runs a plan over flows, up to a limit of instants. The text of each instant is appended to the sink once
/// the instant is whole, so that of a whole run the sink took the text of the longest trace, and the answer
/// is the number of its instants with the named cause. Where a write fails, a prefix of that text was
/// appended. Each cluster passes the gate before the operations of each instant, and at the instant behind
/// the limit, where the run ends. All memory is taken before the first instant.
pub fn run_alone<S: Sink, G: Gate>(
    alloc: Global,
    plan: &Plan,
    inputs: &Inputs,
    limit: u32,
    gate: &G,
    sink: &mut S,
) -> Result<Ended, RunAnswer>
    requires fits { AreFlowsFor plan.now.kernel inputs.now }
    requires limit { limit + 1 < 2 ^ 32 }
    ensures whole { IfOk result (IsWholeRun plan.now inputs.now limit S.took sink.old sink.new) }
    ensures prefix { result ≡ Err RunAnswer.WriteFault → TookSome plan.now inputs.now limit S.took sink.old sink.new }
    ensures failed { result ≡ Err RunAnswer.WriteFault → Rose (S.faults sink.old) (S.faults sink.new) }
    ensures faults_stay { S.faults sink.old ≤ S.faults sink.new }
    ensures memory { result ≡ Err RunAnswer.OutOfMemory → sink.new ≡ sink.old }
{
    let Ok(mut ready) = ReadyRun::new(alloc, plan, inputs) else {
        return Err(RunAnswer::OutOfMemory);
    };
    match ready.run(plan, inputs, limit, 0, gate, sink) {
        Ok(ended) => Ok(ended),
        Err(WriteFault) => Err(RunAnswer::WriteFault),
    }
}

impl ReadyRun {
    /// Runs from the opening, where the text of so many first instants is left out.
    pub(crate) fn run<S: Sink, G: Gate>(
        &mut self,
        plan: &Plan,
        inputs: &Inputs,
        limit: u32,
        written: u32,
        gate: &G,
        sink: &mut S,
    ) -> Result<Ended, WriteFault>
        requires fits { AreFlowsFor plan.now.kernel inputs.now }
        requires limit { limit + 1 < 2 ^ 32 }
        requires ready { IsReady plan.now inputs.now self.old }
        ensures whole { IfOk result (IsWholeRest plan.now inputs.now limit written S.took sink.old sink.new) }
        ensures prefix { OnErr result (TookSomeRest plan.now inputs.now limit written S.took sink.old sink.new) }
        ensures failed { OnErr result (Rose (S.faults sink.old) (S.faults sink.new)) }
        ensures faults_stay { S.faults sink.old ≤ S.faults sink.new }
    {
        plans_are_accepted(plan);
        for done in 0..limit {
            pass_all(plan, gate, done + 1);
            if let Err(cause) = self.machine.react(plan, &self.lowered, inputs) {
                return Ok(Ended {
                    instants: done,
                    cause,
                });
            }
            self.commit(plan, inputs, done >= written, sink)?;
        }
        pass_all(plan, gate, limit + 1);
        Ok(Ended {
            instants: limit,
            cause: Cause::Limit,
        })
    }

    /// Appends the lines of a reaction, where they are due, and goes to the next instant.
    fn commit<S: Sink>(
        &mut self,
        plan: &Plan,
        _inputs: &Inputs,
        due: bool,
        sink: &mut S,
    ) -> Result<(), WriteFault>
        requires instant { self.old.machine.instant + 1 < 2 ^ 32 }
        requires machine { IsMachineOf plan.now self.old.lowered _inputs.now self.old.machine }
        requires room { longest_lines (outputs_of plan.now.kernel) ≤ self.old.lines.size }
        ensures lowered { self.new.lowered ≡ self.old.lowered }
        ensures size { self.new.lines.size ≡ self.old.lines.size }
        ensures all { OnOk result (S.took sink.old (lines_due due plan.now.kernel (registers_of self.old.machine)) sink.new) }
        ensures next { OnOk result ((step : ℕ) → actor_at self.new.machine 0 ≡ at_next (actor_at self.old.machine step)) }
        ensures machine { OnOk result (IsMachineOf plan.now self.new.lowered _inputs.now self.new.machine) }
        ensures prefix { OnErr result (TookPrefix S.took sink.old (lines_due due plan.now.kernel (registers_of self.old.machine)) sink.new) }
        ensures failed { OnErr result (Rose (S.faults sink.old) (S.faults sink.new)) }
        ensures faults_stay { S.faults sink.old ≤ S.faults sink.new }
    {
        put_due(&self.machine, plan, due, &mut self.lines, sink)?;
        self.machine.next_instant();
        Ok(())
    }
}
