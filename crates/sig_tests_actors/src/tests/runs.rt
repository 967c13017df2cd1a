//! Runs of a plan on one thread, and with workers.

ghost use Rattle.sig_kernel.specs.Validity.{AreFlowsFor};

use super::loaded::number;
use sig_alone::run_alone;
use sig_kernel::Inputs;
use sig_plan::Plan;
use sig_text::{Gate, MemSink};
use sig_work::run;
use std::sync::Wait;
use std::test::Fail;
use std::thread::Threads;

/// A gate at which nobody waits.
struct Open;

impl Gate for Open {
    fn pass(&self, _cluster: u32, _instant: u32) {}
}

/// A run up to a limit into a sink with so much room; with so many workers over links of one item, where their number is
/// told, and else on one thread.
pub fn ran<R: Threads + Wait + Sync + AllocGlobal>(
    rt: &R,
    plan: &Plan,
    inputs: &Inputs,
    limit: u16,
    room: u16,
    workers: Option<&str>,
) -> Result<String, Fail>
    requires { AreFlowsFor plan.now.kernel inputs.now }
{
    let alloc = rt.alloc();
    let limit = u32::from(limit);
    let mut sink = MemSink::new(alloc, u32::from(room))?;
    let ended = match workers {
        None => format!(in alloc;
            "{:?}",
            run_alone(alloc, plan, inputs, limit, &Open, &mut sink)
        )?,
        Some(_) => {
            let workers = u32::from(number(workers)).min(64);
            let ended = run(rt, alloc, plan, inputs, 1, limit, workers, &Open, &mut sink);
            format!(in alloc; "{ended:?}")?
        }
    };
    Ok(format!(in alloc; "{ended} {:?}", str::from_utf8(sink.bytes())?)?)
}
