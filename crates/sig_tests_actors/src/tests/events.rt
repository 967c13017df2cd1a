//! Events of all actors, and runs from there to the end.

ghost use Rattle.sig_interleaving.specs.Cores.{IsCore, IsReached};
ghost use Rattle.sig_kernel.specs.Validity.{AreFlowsFor};

use sig_interleaving::{Core, Event};
use sig_kernel::Inputs;
use sig_plan::Plan;
use sig_text::MemSink;
use std::alloc::Global;
use std::fmt::Write;
use std::test::Fail;

/// Lets the events of these words happen, and appends whether each of them changed the state, and to how many bytes the
/// text has come.
fn put_events(
    text: &mut String,
    core: &mut Core,
    events: &str,
    sink: &mut MemSink,
) -> Result<(), Fail>
    requires core { IsCore core.old }
    requires reached { IsReached core.old }
    ensures core { IsCore core.new }
    ensures reached { IsReached core.new }
{
    for word in events.split_whitespace() {
        let actor = word.trim_start_matches('L').parse::<u32>()?;
        let event = if word.starts_with('L') {
            Event::Look(actor)
        } else {
            Event::Act(actor)
        };
        let is_change = core.event(event, sink)?;
        write!(text, "{word} {is_change};")?;
    }
    write!(text, "\n{}", sink.bytes().len())?;
    Ok(())
}

/// Appends the states of the actors and links, of nine of each at most, and the failure word.
fn put_state(text: &mut String, core: &Core) -> Result<(), Fail>
    requires { IsCore core.now }
{
    for number in 0..9 {
        let state = (core.actor(number), core.link_len(number));
        if state != (None, None) {
            write!(text, "\n{number} {state:?}")?;
        }
    }
    write!(text, "\n{:?}", core.word())?;
    Ok(())
}

/// Runs to the end, and appends what is answered, and the text of the sink.
fn put_end(text: &mut String, core: &mut Core, sink: &mut MemSink) -> Result<(), Fail>
    requires core { IsCore core.old }
    requires reached { IsReached core.old }
    ensures core { IsCore core.new }
    ensures reached { IsReached core.new }
{
    let ended = core.finish(sink);
    write!(text, "\n{ended:?} {:?}", str::from_utf8(sink.bytes())?)?;
    Ok(())
}

/// What the events of these words do, over links of one item, and then the run to its end, twice.
pub fn happened(
    alloc: Global,
    plan: &Plan,
    inputs: &Inputs,
    room: u16,
    events: &str,
) -> Result<String, Fail>
    requires { AreFlowsFor plan.now.kernel inputs.now }
{
    let mut text = String::new(alloc);
    let mut sink = MemSink::new(alloc, u32::from(room))?;
    let mut rest = MemSink::new(alloc, 1000)?;
    let mut core = Core::new(alloc, plan, inputs, 1, 9)?;
    put_events(&mut text, &mut core, events, &mut sink)?;
    put_state(&mut text, &core)?;
    put_end(&mut text, &mut core, &mut sink)?;
    put_end(&mut text, &mut core, &mut rest)?;
    Ok(text)
}
