//! The text of a reaction.

ghost use Rattle.std.specs.Prelude.{◌≡◌, ◌≤◌, ◌<◌, ◌+◌, ◌^◌};
ghost use Rattle.sig_values.specs.Prelude.{ℕ, [], IfOk, OnErr, OnOk, longest_lines, outputs_of, IsAccepted, Registers, Rose, TookPrefix};
ghost use Rattle.sig_values.specs.Lines.{TellsRegisters, lines_of};

use crate::lines::put_instant;
use sig_base::Signal;
use sig_flow::OutputLines;
use sig_kernel::Kernel;
use sig_plan::Plan;
use sig_text::{Sink, WriteFault};
use std::alloc::{AllocError, Global};

/// No lines, and room for one of each output of a plan. Only memory can be wanting.
pub fn lines_for(alloc: Global, plan: &Plan) -> Result<OutputLines, AllocError>
    ensures none { IfOk result (λ lines. lines.text ≡ []) }
    ensures size { IfOk result (λ lines. lines.size ≡ longest_lines (outputs_of plan.now.kernel)) }
{
    OutputLines::new(alloc, outputs_of(plan))
}

/// Appends the lines of the outputs of a plan that are present, in the order of their declaration; where a write fails, a prefix
/// of them. What the signal of a number is, a closure tells. The sink is given them at once. It takes no memory.
pub fn put_reaction<S: Sink, F: Fn(u32) -> Option<i64>>(
    plan: &Plan,
    seen: F,
    lines: &mut OutputLines,
    sink: &mut S,
) -> Result<(), WriteFault>
    requires told { F.IsAlwaysCallable seen }
    requires room { longest_lines (outputs_of plan.now.kernel) ≤ lines.old.size }
    ensures size { lines.new.size ≡ lines.old.size }
    ensures all { (registers : Registers) → TellsRegisters (F.post seen) plan.now.kernel registers
        → OnOk result (S.took sink.old (lines_of plan.now.kernel registers) sink.new) }
    ensures prefix { (registers : Registers) → TellsRegisters (F.post seen) plan.now.kernel registers
        → OnErr result (TookPrefix S.took sink.old (lines_of plan.now.kernel registers) sink.new) }
    ensures failed { OnErr result (Rose (S.faults sink.old) (S.faults sink.new)) }
    ensures faults_stay { S.faults sink.old ≤ S.faults sink.new }
{
    let first = kernel_of(plan).inputs;
    let output = |place: usize| -> Option<i64>
        requires callable { F.IsAlwaysCallable seen }
        requires number { first + place < 2 ^ 32 }
        ensures { F.post seen (first + place) result }
    { seen(first + place as u32) };
    put_instant(outputs_of(plan), output, lines, sink)
}

/// The kernel of a plan.
fn kernel_of(plan: &Plan) -> &Kernel
    ensures kernel { result.now ≡ plan.now.kernel }
    ensures accepted { IsAccepted plan.now }
{
    &plan.kernel
}

/// The outputs of a plan, in order.
fn outputs_of(plan: &Plan) -> &[Signal]
    ensures { result.now ≡ outputs_of plan.now.kernel }
{
    let kernel = kernel_of(plan);
    let (_, behind) = kernel.signals.as_slice().split_at(kernel.inputs as usize);
    let (outputs, _) = behind.split_at(kernel.outputs as usize);
    outputs
}
