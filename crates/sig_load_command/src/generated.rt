//! The generated program and its flows.

ghost use Rattle.std.specs.Prelude.{◌≡◌, ◌≤◌};
ghost use Rattle.sig_load_command.specs.Prelude.{IfErr, IfOk, IsAcceptedAs, AreFlows, AreFlowsFor, inputs_of, flows, program, HoldFew, IsDistinct, bytes_eq, map};
ghost use Rattle.sig_load_command.specs.Loads.{IsShortFlows, IsShortProgram};
ghost use Rattle.sig_load_command.specs.Refusals.{IsOfFlowsText, IsOfProgramText};
ghost use Rattle.sig_load_command.specs.inner.Stopping.{StopsLoad};

use sig_base::limits::{FLOW_BYTES, PROGRAM_BYTES};
use sig_kernel::{Inputs, Kernel};
use sig_load::{LoadAnswer, flows_text, program_text};
use sig_loaded::{Loaded, flows_of, hold_too_many};
use sig_outcome::Refusal;
use sig_plan::Plan;
use sig_program::plan_of;
use std::alloc::Global;

/// The plan of the generated program of so many stages and its flows from a seed on, with links that hold
/// `capacity` items.
pub fn generated<'a>(
    alloc: Global,
    seed: u64,
    stages: u32,
    capacity: u32,
) -> Result<Loaded, Refusal<'a>>
    requires some { 1 ≤ stages }
    requires few { stages ≤ 12 }
    ensures program { IfOk result (λ loaded. IsShortProgram (program stages) loaded.plan.kernel) }
    ensures few { IfOk result (λ loaded. HoldFew loaded.plan.kernel capacity) }
    ensures flows { IfOk result (λ loaded. IsShortFlows loaded.plan.kernel (flows seed stages) loaded.inputs) }
    ensures fit { IfOk result (λ loaded. AreFlowsFor loaded.plan.kernel loaded.inputs) }
    ensures stops { IfErr result (StopsLoad seed stages capacity) }
{
    let plan = generated_plan(alloc, stages)?;
    if hold_too_many(&plan, capacity) {
        return Err(Refusal::TooManyItems);
    }
    let inputs = generated_flows(alloc, seed, stages, &plan.kernel)?;
    Ok(Loaded { plan, inputs })
}

/// The plan of the generated program.
fn generated_plan<'a>(alloc: Global, stages: u32) -> Result<Plan, Refusal<'a>>
    requires some { 1 ≤ stages }
    requires few { stages ≤ 12 }
    ensures program { IfOk result (λ plan. IsShortProgram (program stages) plan.kernel) }
    ensures refused { IfErr result (IsOfProgramText (program stages)) }
{
    let Ok(text) = program_text(alloc, stages) else {
        return Err(Refusal::OutOfMemory);
    };
    if text.len() > PROGRAM_BYTES {
        return Err(Refusal::LongProgram);
    }
    plan_of(alloc, &text, false)
}

/// The generated flows, as those of a kernel's inputs.
fn generated_flows<'a>(
    alloc: Global,
    seed: u64,
    stages: u32,
    kernel: &Kernel,
) -> Result<Inputs, Refusal<'a>>
    requires some { 1 ≤ stages }
    requires few { stages ≤ 12 }
    requires differ { IsDistinct bytes_eq (map (λ input. input.name) (inputs_of kernel.now)) }
    ensures flows { IfOk result (IsShortFlows kernel.now (flows seed stages)) }
    ensures fit { IfOk result (AreFlowsFor kernel.now) }
    ensures refused { IfErr result (IsOfFlowsText kernel.now (flows seed stages)) }
{
    let Ok(text) = flows_text(alloc, seed, stages) else {
        return Err(Refusal::OutOfMemory);
    };
    if text.len() > FLOW_BYTES {
        return Err(Refusal::LongFile("flows"));
    }
    flows_of(alloc, &text, "flows", kernel)
}
