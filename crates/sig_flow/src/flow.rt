//! The flows of the lines of a flow file.

ghost use Rattle.std.specs.Prelude.{◌≡◌, ◌≤◌, ◌<◌, ◌+◌, ◌^◌, ◌⊎◌};
ghost use Rattle.sig_flow.specs.Prelude.{ℕ, [], bytes_eq, length, map, vec_len, slice_index_or, IfOk, IfErr, IsDistinct};
ghost use Rattle.sig_flow.specs.inner.Bodies.{body_behind};
ghost use Rattle.sig_flow.specs.Flows.{AreFlowsIn, IsFirstIn};
ghost use Rattle.sig_flow.specs.declared.answer.FlowAnswer.TheVariants.{OutOfMemory};

use crate::answer::FlowAnswer;
use crate::body::Body;
use crate::flow_line::{Context, read_line};
use crate::line::next_line;
use crate::names::Names;
use sig_base::Signal;
use sig_kernel::Flow;
use std::alloc::{AllocFailed, Global};

/// The flows of the body of a flow file, or its first offending place.
pub fn flows_of(alloc: Global, body: Body, inputs: &[Signal]) -> Result<Vec<Flow>, FlowAnswer>
    requires differ { IsDistinct bytes_eq (map (λ input. input.name) inputs.now) }
    requires lines { body.number + length body.lines.now < 2 ^ 64 }
    ensures flows { IfOk result (λ flows. AreFlowsIn inputs.now (body_behind body.entry) flows.items) }
    ensures fault { IfErr result (λ answer. (answer ≡ OutOfMemory) ⊎ IsFirstIn inputs.now (body_behind body.entry) answer) }
{
    let names = Names::of(alloc, inputs)?;
    let mut flows = empty_flows(alloc, inputs.len())?;
    let mut rest = body.lines;
    let mut number = body.number;
    let mut before = 0;
    while !rest.is_empty() {
        let (line, after) = next_line(rest);
        let context = Context {
            version: body.version,
            number,
            before,
        };
        before = read_line(line, context, &names, inputs, &mut flows)?;
        number += 1;
        rest = after;
    }
    Ok(flows)
}

/// This many flows without values.
fn empty_flows(alloc: Global, count: usize) -> Result<Vec<Flow>, AllocFailed<Flow>>
    ensures count { IfOk result (λ flows. vec_len flows ≡ count) }
    ensures empty { IfOk result (λ flows. (k : ℕ) → slice_index_or flows.items k [] ≡ []) }
{
    let mut flows = Vec::new(alloc);
    for _ in 0..count {
        flows.push(Flow::from(Vec::new(alloc)))?;
    }
    Ok(flows)
}
