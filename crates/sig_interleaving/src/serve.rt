//! Events of the least actor that has one which changes something.

ghost use Rattle.std.specs.Prelude.{◌≤◌, ◌<◌};
ghost use Rattle.sig_interleaving.specs.Prelude.{IfOk, OnErr, OnOk, length, Rose, TookPrefix};
ghost use Rattle.sig_interleaving.specs.Cores.{IsCore, IsReached, IsSameRun};
ghost use Rattle.sig_interleaving.specs.Finishing.{LeadsTo};
ghost use Rattle.sig_interleaving.specs.inner.Resting.{RestBelow, SeesNothing, Serves};

use crate::state::Core;
use sig_step::plans_are_accepted;
use sig_text::{Sink, WriteFault};

impl<'a> Core<'a> {
    /// Lets one event of an actor happen that changes something, where there is one, a look before a step. The answer is an
    /// actor below which none has one then: the next one, where this one has none.
    pub(crate) fn serve<S: Sink>(&mut self, k: u32, sink: &mut S) -> Result<u32, WriteFault>
        requires core { IsCore self.old }
        requires reached { IsReached self.old }
        requires actor { k < length self.old.states.items }
        requires rest { RestBelow k self.old }
        ensures core { IsCore self.new }
        ensures run { IsSameRun self.old self.new }
        ensures leads { OnOk result (LeadsTo S.took self.old self.new sink.old sink.new) }
        ensures part { OnErr result (LeadsTo (TookPrefix S.took) self.old self.new sink.old sink.new) }
        ensures serves { IfOk result (Serves k self.old self.new) }
        ensures failed { OnErr result (Rose (S.faults sink.old) (S.faults sink.new)) }
        ensures faults_stay { S.faults sink.old ≤ S.faults sink.new }
    {
        plans_are_accepted(self.plan);
        if self.look(k) {
            return Ok(k);
        }
        self.serve_step(k, sink)
    }

    /// The same of an actor for which a look changes nothing. Behind a step any actor may have one.
    fn serve_step<S: Sink>(&mut self, k: u32, sink: &mut S) -> Result<u32, WriteFault>
        requires core { IsCore self.old }
        requires reached { IsReached self.old }
        requires actor { k < length self.old.states.items }
        requires rest { RestBelow k self.old }
        requires looked { SeesNothing k self.old }
        ensures core { IsCore self.new }
        ensures run { IsSameRun self.old self.new }
        ensures leads { OnOk result (LeadsTo S.took self.old self.new sink.old sink.new) }
        ensures part { OnErr result (LeadsTo (TookPrefix S.took) self.old self.new sink.old sink.new) }
        ensures serves { IfOk result (Serves k self.old self.new) }
        ensures failed { OnErr result (Rose (S.faults sink.old) (S.faults sink.new)) }
        ensures faults_stay { S.faults sink.old ≤ S.faults sink.new }
    {
        plans_are_accepted(self.plan);
        if !self.act(k, sink)? {
            return Ok(k + 1);
        }
        Ok(0)
    }
}
