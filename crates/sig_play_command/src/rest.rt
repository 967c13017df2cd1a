//! What the events of a play leave of the text.

ghost use Rattle.std.specs.Prelude.{◌≡◌, ◌≤◌};
ghost use Rattle.sig_play_command.specs.Prelude.{IfOk, OnErr, OnOk, Core as ModelCore, IsCore, IsEndOf, Rose, Shows, TookPrefix, TookRest};
ghost use Rattle.sig_play_command.specs.inner.Standing.{IsPlay, committed_in};

use crate::plans::collector_of;
use crate::play::Play;
use sig_interleaving::Core;
use sig_plan::{Ended, Plan};
use sig_step::plans_are_accepted;
use sig_text::{Sink, WriteFault};

impl<'a> Play<'a> {
    /// Appends what the events have left of the text of the longest trace, and answers with the end of that.
    /// The rest is determined, so a run from the opening writes it, without the text of the instants that the
    /// core has committed. After a write that failed a prefix of the rest was appended. It takes no memory.
    pub(crate) fn write_rest<S: Sink>(&mut self, out: &mut S) -> Result<Ended, WriteFault>
        requires { IsPlay self.old }
        ensures answer { IfOk result (IsEndOf self.old.core) }
        ensures rest { OnOk result (TookRest S.took self.old.core out.old out.new) }
        ensures part { OnErr result (TookRest (TookPrefix S.took) self.old.core out.old out.new) }
        ensures failed { OnErr result (Rose (S.faults out.old) (S.faults out.new)) }
        ensures faults_stay { S.faults out.old ≤ S.faults out.new }
    {
        plans_are_accepted(self.plan);
        let written = committed_in(&self.core, self.plan);
        self.ready
            .finish(self.plan, self.inputs, self.limit, written, out)
    }
}

/// How many instants a core has committed: those before that of the collector.
fn committed_in(core: &Core<'_>, plan: &Plan) -> u32
    requires core { IsCore core.now }
    requires plan { core.now.plan.now ≡ plan.now }
    ensures { (m : ModelCore) → Shows m core.now → result ≡ committed_in plan.now m }
{
    match core.actor(collector_of(plan)) {
        Some(collector) => collector.instant.saturating_sub(1),
        None => 0,
    }
}
