//! What a play writes.

ghost use Rattle.std.specs.Prelude.{◌≤◌};
ghost use Rattle.sig_play_command.specs.Prelude.{IfOk, IsTrue, OnErr, OnOk, length, map, ITEMS, Shows, given_of, opening, Rose, TookPrefix};
ghost use Rattle.sig_play_command.specs.inner.EventFiles.{happens};
ghost use Rattle.sig_play_command.specs.inner.Happening.{IsEndIn, TookPlay};
ghost use Rattle.sig_play_command.specs.inner.Standing.{IsPlay};

use crate::events::play_events;
use crate::play::Play;
use crate::state::put_state;
use sig_flow::FileEvent;
use sig_plan::Ended;
use sig_text::{Sink, WriteFault};

/// Lets events happen at the opening of a play, appends the state that they leave and the rest of the text,
/// and hands the text on. It takes no memory.
pub(crate) fn play_out<S: Sink>(
    play: &mut Play<'_>,
    events: &[FileEvent],
    out: &mut S,
) -> Result<Ended, WriteFault>
    requires play { IsPlay play.old }
    requires opening { Shows (opening play.old.core.plan.now) play.old.core }
    requires links { length play.old.core.plan.now.links ≤ ITEMS }
    ensures whole { OnOk result (TookPlay S.took (given_of play.old.core) (map happens events.now) out.old out.new) }
    ensures end { IfOk result (IsEndIn (given_of play.old.core)) }
    ensures clean { OnOk result (IsTrue (S.clean out.new)) }
    ensures prefix { OnErr result (TookPlay (TookPrefix S.took) (given_of play.old.core) (map happens events.now) out.old out.new) }
    ensures failed { OnErr result (Rose (S.faults out.old) (S.faults out.new)) }
{
    play_events(&mut play.core, events, out)?;
    put_state(&play.core, out)?;
    let end = play.write_rest(out)?;
    out.flush()?;
    Ok(end)
}
