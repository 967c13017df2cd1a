//! Events of a core.

ghost use Rattle.std.specs.Prelude.{◌≤◌};
ghost use Rattle.sig_interleaving.specs.Prelude.{IfOk, OnErr, OnOk, Rose, TookPrefix};
ghost use Rattle.sig_interleaving.specs.Cores.{Happened, IsCore, IsReached, IsSameRun, TellsChange};
ghost use Rattle.sig_interleaving.specs.Schedules.{BeginsTheText, GoesOn, HasTheEnd, HoldsOf, KeepsToTheReference, RecordsNoneBefore};

use crate::laws::cores_keep_to_the_plan;
use crate::state::Core;
use sig_model::Event;
use sig_text::{Sink, WriteFault};

impl<'a> Core<'a> {
    /// Lets an event happen, and tells whether it changed the state. The text of a reaction that it commits
    /// is appended to the sink; after a fault of the sink the event has happened, and a prefix of that text
    /// was appended. An event of an actor that the plan does not have changes nothing. It takes no memory.
    pub fn event<S: Sink>(&mut self, e: Event, sink: &mut S) -> Result<bool, WriteFault>
        requires { IsCore self.old }
        ensures core { IsCore self.new }
        ensures run { IsSameRun self.old self.new }
        ensures happened { OnOk result (Happened S.took e self.old self.new sink.old sink.new) }
        ensures part { OnErr result (Happened (TookPrefix S.took) e self.old self.new sink.old sink.new) }
        ensures answer { IfOk result (TellsChange self.old e) }
        ensures reached { IsReached self.old → IsReached self.new }
        ensures text { HoldsOf BeginsTheText self.new }
        ensures reference { HoldsOf KeepsToTheReference self.new }
        ensures word { HoldsOf RecordsNoneBefore self.new }
        ensures enabled { HoldsOf GoesOn self.new }
        ensures end { HoldsOf HasTheEnd self.new }
        ensures failed { OnErr result (Rose (S.faults sink.old) (S.faults sink.new)) }
        ensures faults_stay { S.faults sink.old ≤ S.faults sink.new }
    {
        let result = self.happen(e, sink);
        cores_keep_to_the_plan(self);
        result
    }

    /// Lets an event happen.
    fn happen<S: Sink>(&mut self, e: Event, sink: &mut S) -> Result<bool, WriteFault>
        requires { IsCore self.old }
        ensures core { IsCore self.new }
        ensures run { IsSameRun self.old self.new }
        ensures happened { OnOk result (Happened S.took e self.old self.new sink.old sink.new) }
        ensures part { OnErr result (Happened (TookPrefix S.took) e self.old self.new sink.old sink.new) }
        ensures answer { IfOk result (TellsChange self.old e) }
        ensures failed { OnErr result (Rose (S.faults sink.old) (S.faults sink.new)) }
        ensures faults_stay { S.faults sink.old ≤ S.faults sink.new }
    {
        match e {
            Event::Act(k) => self.act(k, sink),
            Event::Look(k) => Ok(self.look(k)),
        }
    }
}
