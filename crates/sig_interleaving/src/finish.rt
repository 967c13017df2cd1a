//! A run to its end.

ghost use Rattle.std.specs.Prelude.{◌≤◌};
ghost use Rattle.sig_interleaving.specs.Prelude.{IfOk, OnErr, OnOk, Rose, TookPrefix};
ghost use Rattle.sig_interleaving.specs.Cores.{IsCore, IsReached, IsSameRun};
ghost use Rattle.sig_interleaving.specs.Finishing.{HasEnded, IsEndOf, LeadsWithin, TookRest};
ghost use Rattle.sig_interleaving.specs.Schedules.{BeginsTheText, GoesOn, HasTheEnd, HoldsOf, KeepsToTheReference, RecordsNoneBefore};

use crate::laws::cores_keep_to_the_plan;
use crate::state::Core;
use sig_plan::Ended;
use sig_step::plans_are_accepted;
use sig_text::{Sink, WriteFault};

impl<'a> Core<'a> {
    /// Lets one event happen after another until all actors have ended: each time that of the least actor
    /// for which one changes something, a look before a step. These events are no more than the steps of all
    /// codes, times the limit, and the actors. The rest of the text of the longest trace is
    /// appended to the sink, and the answer is the number of its instants with the named cause; after a
    /// fault of the sink a prefix of that rest was appended, and of the text of the events that happened. It
    /// takes no memory.
    pub fn finish<S: Sink>(&mut self, sink: &mut S) -> Result<Ended, WriteFault>
        requires core { IsCore self.old }
        requires reached { IsReached self.old }
        ensures core { IsCore self.new }
        ensures run { IsSameRun self.old self.new }
        ensures reached { IsReached self.new }
        ensures ended { OnOk result (HasEnded self.new) }
        ensures answer { IfOk result (IsEndOf self.old) }
        ensures rest { OnOk result (TookRest S.took self.old sink.old sink.new) }
        ensures part { OnErr result (TookRest (TookPrefix S.took) self.old sink.old sink.new) }
        ensures leads { OnOk result (LeadsWithin S.took self.old self.new sink.old sink.new) }
        ensures led { OnErr result (LeadsWithin (TookPrefix S.took) self.old self.new sink.old sink.new) }
        ensures text { HoldsOf BeginsTheText self.new }
        ensures reference { HoldsOf KeepsToTheReference self.new }
        ensures word { HoldsOf RecordsNoneBefore self.new }
        ensures enabled { HoldsOf GoesOn self.new }
        ensures end { HoldsOf HasTheEnd self.new }
        ensures failed { OnErr result (Rose (S.faults sink.old) (S.faults sink.new)) }
        ensures faults_stay { S.faults sink.old ≤ S.faults sink.new }
    {
        let result = self.run_out(sink);
        cores_keep_to_the_plan(self);
        result
    }

    /// Lets one event happen after another until all actors have ended.
    fn run_out<S: Sink>(&mut self, sink: &mut S) -> Result<Ended, WriteFault>
        requires core { IsCore self.old }
        requires reached { IsReached self.old }
        ensures core { IsCore self.new }
        ensures run { IsSameRun self.old self.new }
        ensures reached { IsReached self.new }
        ensures ended { OnOk result (HasEnded self.new) }
        ensures answer { IfOk result (IsEndOf self.old) }
        ensures rest { OnOk result (TookRest S.took self.old sink.old sink.new) }
        ensures part { OnErr result (TookRest (TookPrefix S.took) self.old sink.old sink.new) }
        ensures leads { OnOk result (LeadsWithin S.took self.old self.new sink.old sink.new) }
        ensures led { OnErr result (LeadsWithin (TookPrefix S.took) self.old self.new sink.old sink.new) }
        ensures failed { OnErr result (Rose (S.faults sink.old) (S.faults sink.new)) }
        ensures faults_stay { S.faults sink.old ≤ S.faults sink.new }
    {
        plans_are_accepted(self.plan);
        let mut k = 0;
        'events: while (k as usize) < self.states.len() {
            k = self.serve(k, sink)?;
        }
        Ok(self.ended())
    }
}
