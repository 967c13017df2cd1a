//! Events of a file, one after another.

ghost use Rattle.std.specs.Prelude.{◌≡◌, ◌≤◌};
ghost use Rattle.sig_play_command.specs.Prelude.{OnErr, OnOk, map, IsCore, IsSameRun, Rose, TookPrefix};
ghost use Rattle.sig_play_command.specs.inner.EventFiles.{happens};
ghost use Rattle.sig_play_command.specs.inner.Happening.{AllHappened, PartHappened};

use sig_flow::FileEvent;
use sig_interleaving::{Core, Event};
use sig_text::{Sink, WriteFault};

/// Lets events happen one after another, and appends the text of the reactions that they commit. After a
/// fault of the sink a prefix of that text was appended. It takes no memory.
pub(crate) fn play_events<S: Sink>(
    core: &mut Core<'_>,
    events: &[FileEvent],
    out: &mut S,
) -> Result<(), WriteFault>
    requires { IsCore core.old }
    ensures core { IsCore core.new }
    ensures run { IsSameRun core.old core.new }
    ensures happened { OnOk result (AllHappened S.took (map happens events.now) core.old core.new out.old out.new) }
    ensures part { OnErr result (PartHappened (TookPrefix S.took) (map happens events.now) core.old out.old out.new) }
    ensures failed { OnErr result (Rose (S.faults out.old) (S.faults out.new)) }
    ensures faults_stay { S.faults out.old ≤ S.faults out.new }
{
    for event in events {
        core.event(event_of(*event), out)?;
    }
    Ok(())
}

/// The event of a core that an event of a file stands for.
fn event_of(event: FileEvent) -> Event
    ensures { result ≡ happens event }
{
    match event {
        FileEvent::Act(k) => Event::Act(k),
        FileEvent::Look(k) => Event::Look(k),
    }
}
