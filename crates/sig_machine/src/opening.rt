//! The machine of an actor at the opening.

ghost use Rattle.std.specs.Prelude.{◌≡◌, ◌<◌};
ghost use Rattle.sig_machine.specs.Prelude.{IfOk, length, replicate, AreFlowsFor, opening_actor};
ghost use Rattle.sig_machine.specs.ActorMachines.{IsMachineOfActor, actor_in};

use crate::actor::ActorMachine;
use crate::lowering::{opening_cells, zeros};
use crate::machine::{Machine, untaken, unwritten};
use crate::own::own_of;
use crate::plans::{conditions_of, kernel_of, steps_of};
use crate::steps::instructions_of;
use crate::truths::{falses, next_told_of, variables_of};
use sig_cells::Instructions;
use sig_kernel::Inputs;
use sig_plan::Plan;
use std::alloc::{AllocError, Global};

impl ActorMachine {
    /// The machine of an actor of a plan at the opening: at instant 1, no signal is written, nothing is read, and each
    /// delay remembers its initial value. All memory that it will need is taken here.
    pub fn new(
        alloc: Global,
        plan: &Plan,
        actor: u32,
        inputs: &Inputs,
    ) -> Result<ActorMachine, AllocError>
        requires actor { actor < length plan.now.codes }
        requires fits { AreFlowsFor plan.now.kernel inputs.now }
        ensures machine { IfOk result (IsMachineOfActor plan.now actor inputs.now) }
        ensures opening { IfOk result (λ a. actor_in a 0 ≡ opening_actor plan.now.kernel) }
    {
        let kernel = kernel_of(plan);
        let conditions = conditions_of(plan);
        let signals = kernel.signals.as_slice().len();
        let mut cells = opening_cells(alloc, kernel)?;
        cells.push(0)?;
        let listed = instructions_of(alloc, plan, steps_of(plan, actor), &mut cells)?;
        let variables = variables_of(alloc, conditions, signals)?;
        let next_told = next_told_of(alloc, listed.as_slice(), variables.as_slice())?;
        let own = own_of(kernel, listed.as_slice());
        let instructions = Instructions::new(alloc, listed)?;
        let last = zeros(alloc, cells.len())?;
        let machine = machine_on(alloc, signals, cells, inputs.as_slice().len())?;
        let truths = falses(alloc, conditions.len())?;
        Ok(ActorMachine {
            machine,
            own,
            last,
            instructions,
            next_told,
            variables,
            truths,
        })
    }
}

/// A machine on these cells at the opening, with so many inputs.
fn machine_on(
    alloc: Global,
    signals: usize,
    cells: Vec<i64>,
    inputs: usize,
) -> Result<Machine, AllocError>
    ensures signals { IfOk result (λ m. m.signals ≡ signals) }
    ensures instant { IfOk result (λ m. m.instant ≡ 1) }
    ensures cells { IfOk result (λ m. m.cells.items ≡ cells.items) }
    ensures stamps { IfOk result (λ m. m.stamps.items ≡ replicate (length cells.items) 0) }
    ensures taken { IfOk result (λ m. m.taken.items ≡ replicate inputs 0) }
{
    let stamps = unwritten(alloc, cells.len())?;
    Ok(Machine {
        signals,
        instant: 1,
        cells,
        stamps,
        taken: untaken(alloc, inputs)?,
    })
}
