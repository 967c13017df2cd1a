//! A run that is ready to begin.

ghost use Rattle.std.specs.Prelude.{◌≡◌, ◌≤◌, ◌<◌, ◌+◌, ◌^◌};
ghost use Rattle.sig_alone.specs.Prelude.{IfOk, OnErr, AreFlowsFor, Rose};
ghost use Rattle.sig_alone.specs.Ready.{IsReady};
ghost use Rattle.sig_alone.specs.Runs.{IsWholeRest, TookSomeRest};

use crate::gates::Open;
use sig_flow::OutputLines;
use sig_kernel::Inputs;
use sig_machine::{Lowered, Machine, lower};
use sig_plan::{Ended, Plan};
use sig_text::{Sink, WriteFault};
use sig_values::lines_for;
use std::alloc::{AllocError, Global};

/// A run that stands at its opening: the instructions of its plan, their machine, and room for the text of an instant.
/// All memory that it will need is taken where it is made.
#[derive(Drop)]
pub struct ReadyRun {
    pub(crate) lowered: Lowered,
    pub(crate) machine: Machine,
    pub(crate) lines: OutputLines,
}

impl ReadyRun {
    /// The run of a plan over flows. Only memory can be wanting.
    pub fn new(alloc: Global, plan: &Plan, inputs: &Inputs) -> Result<ReadyRun, AllocError>
        ensures { IfOk result (IsReady plan.now inputs.now) }
    {
        let lowered = lower(alloc, plan)?;
        let machine = Machine::new(alloc, plan, &lowered, inputs)?;
        let lines = lines_for(alloc, plan)?;
        Ok(ReadyRun {
            lowered,
            machine,
            lines,
        })
    }

    /// Runs up to a limit of instants, of which the text of so many first ones is written already: that of each later one
    /// is appended to the sink once the instant is whole. So of a whole run the sink took the text of the longest trace
    /// without that of its first instants, and the answer is the number of all its instants with the named cause. Where a
    /// write fails, a prefix of that text was appended. It takes no memory, and passes no gate.
    pub fn finish<S: Sink>(
        &mut self,
        plan: &Plan,
        inputs: &Inputs,
        limit: u32,
        written: u32,
        sink: &mut S,
    ) -> Result<Ended, WriteFault>
        requires fits { AreFlowsFor plan.now.kernel inputs.now }
        requires limit { limit + 1 < 2 ^ 32 }
        requires ready { IsReady plan.now inputs.now self.old }
        ensures whole { IfOk result (IsWholeRest plan.now inputs.now limit written S.took sink.old sink.new) }
        ensures prefix { OnErr result (TookSomeRest plan.now inputs.now limit written S.took sink.old sink.new) }
        ensures failed { OnErr result (Rose (S.faults sink.old) (S.faults sink.new)) }
        ensures faults_stay { S.faults sink.old ≤ S.faults sink.new }
    {
        self.run(plan, inputs, limit, written, &Open, sink)
    }
}
