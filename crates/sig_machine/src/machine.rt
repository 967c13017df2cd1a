//! The machine.

ghost use Rattle.std.specs.Prelude.{◌≡◌, ◌+◌, ◌<◌, ◌^◌};
ghost use Rattle.sig_machine.specs.Prelude.{ℕ, ℤ, List, IfOk, replicate, AreFlowsFor, opening_actor, PlanView, at_next};
ghost use Rattle.sig_machine.specs.Machines.{IsMachineOf, actor_at, cell, registers_of};
ghost use Rattle.sig_cells.specs.Instructions.{cells_of, registers_in};
ghost use Rattle.sig_machine.specs.Lowerings.{Lowers};
ghost use Rattle.sig_machine.specs.declared.lowered.Lowered.{Lowered};

use crate::lowered::Lowered;
use sig_base::SigId;
use sig_kernel::Inputs;
use sig_plan::Plan;
use std::alloc::{AllocError, Global};

/// What the instructions of a plan work on: the cells, the instant in which each was written last, and how many values of
/// each input were taken.
#[derive(Drop)]
pub struct Machine {
    pub(crate) signals: usize,
    pub(crate) instant: u32,
    pub(crate) cells: Vec<i64>,
    pub(crate) stamps: Vec<u32>,
    pub(crate) taken: Vec<usize>,
}

impl Machine {
    /// The machine of a plan at the opening: at instant 1 no signal is written, nothing is taken, and each delay remembers
    /// its initial value. All memory that it will need is taken here.
    pub fn new(
        alloc: Global,
        plan: &Plan,
        lowered: &Lowered,
        inputs: &Inputs,
    ) -> Result<Machine, AllocError>
        requires { Lowers plan.now lowered.now }
        ensures machine { IfOk result (IsMachineOf plan.now lowered.now inputs.now) }
        ensures opening { IfOk result (λ m. actor_at m 0 ≡ opening_actor plan.now.kernel) }
    {
        let _kernel = &plan.kernel;
        Ok(Machine {
            signals: lowered.signals,
            instant: 1,
            cells: Vec::from_slice(alloc, lowered.cells.as_slice())?,
            stamps: unwritten(alloc, lowered.cells.len())?,
            taken: untaken(alloc, inputs.as_slice().len())?,
        })
    }

    /// What a signal of the plan is in this instant, as far as it was written.
    pub fn seen(&self, x: SigId) -> Option<i64>
        ensures { result ≡ registers_of self.now x.0 }
    {
        self.seen_at(x, self.instant, self.cells.as_slice())
    }

    /// What a signal of the plan was by these cells, if it was written last in this instant.
    pub(crate) fn seen_at(&self, x: SigId, instant: u32, cells: &[i64]) -> Option<i64>
        ensures { result ≡ registers_in self.now.signals instant (cells_of cells.now self.now.stamps.items self.now.taken.items) x.0 }
    {
        if x.0 as usize >= self.signals {
            return None;
        }
        let stamp = self.stamps.as_slice().get(x.0 as usize)?;
        if *stamp == instant {
            Some(value_at(cells, x.0 as usize))
        } else {
            None
        }
    }

    /// The value of a cell.
    pub(crate) fn cell(&self, number: usize) -> i64
        ensures { result ≡ cell self.now.cells.items number }
    {
        value_at(self.cells.as_slice(), number)
    }

    /// Goes to the next instant, in which no signal is written yet.
    pub fn next_instant(&mut self)
        requires { self.old.instant + 1 < 2 ^ 32 }
        ensures machine { (plan : PlanView) (lowered : Lowered) (flows : List (List ℤ)) → IsMachineOf plan lowered flows self.old
            → IsMachineOf plan lowered flows self.new }
        ensures actor { (plan : PlanView) (lowered : Lowered) (flows : List (List ℤ)) → IsMachineOf plan lowered flows self.old
            → (step : ℕ) → actor_at self.new 0 ≡ at_next (actor_at self.old step) }
    {
        self.instant += 1;
    }
}

/// The value of a cell.
fn value_at(cells: &[i64], number: usize) -> i64
    ensures { result ≡ cell cells.now number }
{
    match cells.get(number) {
        Some(value) => *value,
        None => 0,
    }
}

/// So many stamps of which none is that of an instant.
pub(crate) fn unwritten(alloc: Global, count: usize) -> Result<Vec<u32>, AllocError>
    ensures { IfOk result (λ stamps. stamps.items ≡ replicate count 0) }
{
    vec![in alloc; 0; count]
}

/// So many counts of nothing.
pub(crate) fn untaken(alloc: Global, count: usize) -> Result<Vec<usize>, AllocError>
    ensures { IfOk result (λ counts. counts.items ≡ replicate count 0) }
{
    vec![in alloc; 0; count]
}
