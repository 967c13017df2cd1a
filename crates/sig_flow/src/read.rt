//! Flow files.

ghost use Rattle.std.specs.Prelude.{◌≡◌, ◌⊎◌};
ghost use Rattle.sig_flow.specs.Prelude.{ℤ, List, bytes_eq, map, IfOk, IfErr, IsErrAnd, MatchResult, IsDistinct, inputs_of};
ghost use Rattle.sig_flow.specs.Flows.{AreFlows, IsFirstBadPlace};
ghost use Rattle.sig_flow.specs.declared.answer.FlowAnswer.{FlowAnswer};

use crate::answer::FlowAnswer;
use crate::body::body_of;
use crate::flow::flows_of;
use sig_base::Signal;
use sig_kernel::{Inputs, Kernel};
use std::alloc::Global;

/// The flows of a flow file for a kernel's inputs, one per input and in their order, or the first
/// offending place of the file. Only memory can be wanting besides.
pub fn read_flows(alloc: Global, bytes: &[u8], kernel: &Kernel) -> Result<Inputs, FlowAnswer>
    requires differ { IsDistinct bytes_eq (map (λ input. input.name) (inputs_of kernel.now)) }
    ensures flows { IfOk result (λ flows. AreFlows (inputs_of kernel.now) bytes.now flows) }
    ensures fault { IfErr result (λ answer. (answer ≡ FlowAnswer.OutOfMemory)
        ⊎ IsFirstBadPlace (inputs_of kernel.now) bytes.now answer) }

    // Where the bytes have flows, they are given, and where a place offends, the first is named,
    // unless memory runs out.
    ensures given { (flows : List (List ℤ)) → AreFlows (inputs_of kernel.now) bytes.now flows →
        MatchResult result (λ given. given ≡ flows) (λ answer. answer ≡ FlowAnswer.OutOfMemory) }
    ensures refused { (fault : FlowAnswer) → IsFirstBadPlace (inputs_of kernel.now) bytes.now fault →
        IsErrAnd result (λ answer. (answer ≡ FlowAnswer.OutOfMemory) ⊎ (answer ≡ fault)) }
{
    read_named(alloc, bytes, kernel.inputs())
}

/// The flows of a flow file for these inputs, one per input and in their order, or the first
/// offending place of the file. Only memory can be wanting besides.
pub fn read_named(alloc: Global, bytes: &[u8], inputs: &[Signal]) -> Result<Inputs, FlowAnswer>
    requires differ { IsDistinct bytes_eq (map (λ input. input.name) inputs.now) }
    ensures flows { IfOk result (λ flows. AreFlows inputs.now bytes.now flows) }
    ensures fault { IfErr result (λ answer. (answer ≡ FlowAnswer.OutOfMemory) ⊎ IsFirstBadPlace inputs.now bytes.now answer) }

    // Where the bytes have flows, they are given, and where a place offends, the first is named,
    // unless memory runs out.
    ensures given { (flows : List (List ℤ)) → AreFlows inputs.now bytes.now flows →
        MatchResult result (λ given. given ≡ flows) (λ answer. answer ≡ FlowAnswer.OutOfMemory) }
    ensures refused { (fault : FlowAnswer) → IsFirstBadPlace inputs.now bytes.now fault →
        IsErrAnd result (λ answer. (answer ≡ FlowAnswer.OutOfMemory) ⊎ (answer ≡ fault)) }
{
    flows_of_file(alloc, bytes, inputs)
}

/// The flows or the first offending place.
fn flows_of_file(alloc: Global, bytes: &[u8], inputs: &[Signal]) -> Result<Inputs, FlowAnswer>
    requires differ { IsDistinct bytes_eq (map (λ input. input.name) inputs.now) }
    ensures flows { IfOk result (λ flows. AreFlows inputs.now bytes.now flows) }
    ensures fault { IfErr result (λ answer. (answer ≡ FlowAnswer.OutOfMemory) ⊎ IsFirstBadPlace inputs.now bytes.now answer) }
{
    let body = body_of(bytes, inputs);
    let flows = flows_of(alloc, body, inputs)?;
    Ok(Inputs::from(flows))
}
