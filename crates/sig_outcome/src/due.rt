//! The text of a command that is done.

ghost use Rattle.std.specs.Prelude.{[], OnErr, OnOk, IsTrue};
ghost use Rattle.sig_text.specs.Counts.{Rose};
ghost use Rattle.sig_text.specs.Sink.{TookPrefix};
ghost use Rattle.sig_outcome.specs.Tasks.{SaysLine, Writes};

use crate::report::say_fault;
use sig_text::{Sink, WriteFault, put_all};

/// Appends a text and hands it on. The status is 0, with nothing on `err`, or 6.
pub fn put_due<S: Sink, E: Sink>(text: &[u8], out: &mut S, err: &mut E) -> u8
    ensures writes { Writes text.now [] 0 S.took out.old out.new (S.faults out.old) (S.faults out.new) (S.clean out.new)
        (SaysLine E.took (E.faults err.old) (E.faults err.new) err.old err.new) result }
{
    match put_whole(text, out) {
        Ok(()) => 0,
        Err(fault) => {
            say_fault(err, fault);
            6
        }
    }
}

/// Appends a text and hands it on.
fn put_whole<S: Sink>(text: &[u8], out: &mut S) -> Result<(), WriteFault>
    ensures whole { OnOk result (S.took out.old text.now out.new) }
    ensures clean { OnOk result (IsTrue (S.clean out.new)) }
    ensures prefix { TookPrefix S.took out.old text.now out.new }
    ensures failed { OnErr result (Rose (S.faults out.old) (S.faults out.new)) }
{
    put_all(out, text)?;
    out.flush()?;
    Ok(())
}
