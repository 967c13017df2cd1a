//! Reading the files of a run.

ghost use Rattle.std.specs.Prelude.{◌≡◌, ◌≢◌, ◌≤◌};
ghost use Rattle.sig_loaded.specs.Prelude.{Some, IfErr, IfOk, IfSome, OnOk, bytes_eq, length, map, true, false, IsDistinct, AreFlows, AreFlowsFor, inputs_of, name_where_there, Good, Reads, HasCount, IsOfData, IsOwn, outcome_of, Stops, FindsAccepted};
ghost use Rattle.sig_loaded.specs.Runs.{AtFlows, FindsFlows, HoldFew, HoldTooMany, IsAboutFlows, RefusesFlows, bad_flows, running};

use sig_base::limits::{FLOW_BYTES, ITEMS};
use sig_flow::{FlowAnswer, flows_that_are_read_fit, read_flows};
use sig_kernel::{Inputs, Kernel};
use sig_outcome::{Refusal, read_data};
use sig_plan::Plan;
use sig_program::load_plan;
use sig_text::Files;
use sig_words::Settings;
use std::alloc::{AllocError, Global};

/// What the files of a run hold: the plan of the program, and the flows of its inputs.
#[derive(Drop)]
pub struct Loaded {
    pub plan: Plan,
    pub inputs: Inputs,
}

/// The plan and the flows of a run with these settings: their pacing and their capacity count here. The flow
/// file is asked for behind a program that is good.
pub fn load<'a, F: Files>(
    alloc: Global,
    files: &mut F,
    program: &'a str,
    flows: &'a str,
    settings: Settings,
) -> Result<Loaded, Refusal<'a>>
    ensures program { IfSome (F.contents files.old) (λ held. IfOk result (λ loaded.
        FindsAccepted settings.pace (held program.now) (Good loaded.plan.kernel))) }
    ensures few { IfOk result (λ loaded. HoldFew loaded.plan.kernel settings.capacity) }
    ensures flows { IfSome (F.contents files.old) (λ held. IfOk result (λ loaded.
        FindsFlows (held flows.now) flows.now (inputs_of loaded.plan.kernel) (Good loaded.inputs))) }
    ensures fit { IfOk result (λ loaded. AreFlowsFor loaded.plan.kernel loaded.inputs) }
    ensures last { IfSome (F.contents files.old) (λ held. IfOk result (λ _.
        F.at files.new ≡ name_where_there held flows.now)) }
    ensures read { OnOk result (Reads (F.contents files.old) (F.contents files.new) (F.at files.new)
        (F.misses files.old) (F.misses files.new) (F.faults files.old) (F.faults files.new) flows.now) }

    // A refusal is the one that told contents call for, if they alone decide it.
    ensures stops { IfErr result (Stops (running program.now flows.now settings)
        (F.contents files.old) (F.at files.old) (F.at files.new)
        (F.misses files.old) (F.misses files.new) (F.faults files.old) (F.faults files.new)) }
{
    let plan = load_plan(alloc, files, program, settings.pace)?;
    if hold_too_many(&plan, settings.capacity) {
        return Err(Refusal::TooManyItems);
    }
    let inputs = load_flows(alloc, files, flows, &plan.kernel)?;
    Ok(Loaded { plan, inputs })
}

/// Whether the links of a plan, each of which holds `capacity` items, hold too many together.
pub fn hold_too_many(plan: &Plan, capacity: u32) -> bool
    ensures many { result ≡ true → HoldTooMany plan.now.kernel capacity }
    ensures few { result ≡ false → HoldFew plan.now.kernel capacity }
{
    plan.links.len().saturating_mul(capacity as usize) > ITEMS as usize
}

/// The flows that the file of this name has for the inputs of a kernel.
fn load_flows<'a, F: Files>(
    alloc: Global,
    files: &mut F,
    name: &'a str,
    kernel: &Kernel,
) -> Result<Inputs, Refusal<'a>>
    requires differ { IsDistinct bytes_eq (map (λ input. input.name) (inputs_of kernel.now)) }
    ensures flows { IfSome (F.contents files.old) (λ held. IfOk result (λ flows.
        FindsFlows (held name.now) name.now (inputs_of kernel.now) (Good flows))) }
    ensures fit { IfOk result (AreFlowsFor kernel.now) }
    ensures refused { IfSome (F.contents files.old) (λ held. IfErr result (λ refusal.
        IsOwn refusal (F.faults files.old) (F.faults files.new) →
        AtFlows held name.now (inputs_of kernel.now) (λ _ _. ⊥) (outcome_of refusal (Some name.now)))) }
    ensures about { IfErr result (IsAboutFlows name.now) }
    ensures counted { IfErr result (HasCount (F.contents files.old) (F.at files.new)
        (F.misses files.old) (F.misses files.new) (F.faults files.old) (F.faults files.new)) }
    ensures read { Reads (F.contents files.old) (F.contents files.new) (F.at files.new)
        (F.misses files.old) (F.misses files.new) (F.faults files.old) (F.faults files.new) name.now }
{
    let bytes = read_data(alloc, files, name)?;
    flows_of(alloc, &bytes, name, kernel)
}

/// The flows of a kernel's inputs that the bytes of the file of this name are.
pub fn flows_of<'a>(
    alloc: Global,
    bytes: &[u8],
    name: &str,
    kernel: &Kernel,
) -> Result<Inputs, Refusal<'a>>
    requires short { length bytes.now ≤ FLOW_BYTES }
    requires differ { IsDistinct bytes_eq (map (λ input. input.name) (inputs_of kernel.now)) }
    ensures flows { IfOk result (AreFlows (inputs_of kernel.now) bytes.now) }
    ensures fit { IfOk result (AreFlowsFor kernel.now) }
    ensures refused { IfErr result (IsOfData (λ line. RefusesFlows name.now (inputs_of kernel.now) bytes.now line)) }
{
    flows_that_are_read_fit();
    match read_flows(alloc, bytes, kernel) {
        Ok(flows) => Ok(flows),
        Err(answer) => Err(refused_flows(alloc, name, answer)),
    }
}

/// The refusal of a flow file by an answer, or want of memory for its line.
pub fn refused_flows<'a>(alloc: Global, name: &str, answer: FlowAnswer) -> Refusal<'a>
    ensures { IsOfData (λ line. (answer ≢ FlowAnswer.OutOfMemory) × (line ≡ bad_flows name.now answer)) result }
{
    match answer {
        FlowAnswer::OutOfMemory => Refusal::OutOfMemory,
        _ => match format!(in alloc; "error: {name}:{answer}") {
            Ok(line) => Refusal::Data(line),
            Err(AllocError) => Refusal::OutOfMemory,
        },
    }
}
