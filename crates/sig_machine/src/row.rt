//! Operations of an actor in a row.

ghost use Rattle.std.specs.Prelude.{◌≡◌, ◌≤◌, ◌<◌, ◌+◌};
ghost use Rattle.sig_machine.specs.Prelude.{Op, code_of, length};
ghost use Rattle.sig_machine.specs.ActorMachines.{IsMachineOfActor, IsOpOfStep};
ghost use Rattle.sig_machine.specs.Following.{AreFollowed, DoOperations, HasFault};
ghost use Rattle.sig_machine.specs.inner.OnCells.{IsOnCells, cells_in};
ghost use Rattle.sig_cells.specs.Rows.{AreInstructions, GoesTo, Stops, listed};

use crate::actor::ActorMachine;
use sig_kernel::Inputs;
use sig_plan::Plan;

impl ActorMachine {
    /// Does the operations of so many steps of the actor from one on, in a row, up to one that has no value, and tells how many
    /// were done. It takes no memory.
    #[inline(always)]
    pub fn follow_row(
        &mut self,
        _plan: &Plan,
        _actor: u32,
        from: u32,
        most: u32,
        inputs: &Inputs,
    ) -> u32
        requires machine { IsMachineOfActor _plan.now _actor inputs.now self.old }
        requires within { from + most ≤ length (code_of _plan.now _actor).steps }
        requires operations { DoOperations _plan.now _actor from most }
        ensures few { result ≤ most }
        ensures followed { AreFollowed _plan.now _actor inputs.now from result self.old self.new }
        ensures stops { result < most → (op : Op) → IsOpOfStep _plan.now _actor (from + result) op → HasFault _plan.now.kernel inputs.now op self.new }
        ensures machine { IsMachineOfActor _plan.now _actor inputs.now self.new }
    {
        let first = from as usize;
        let reached = self.execute(inputs, first, first + most as usize);
        if reached > first {
            self.tell_row(first, reached);
        }
        (reached - first) as u32
    }

    /// Does the instructions from a place up to another one, or to one that has no value, and gives the place that it comes to.
    #[inline(always)]
    fn execute(&mut self, inputs: &Inputs, from: usize, to: usize) -> usize
        requires code { AreInstructions (length self.old.machine.taken.items) (length self.old.machine.cells.items) self.old.instructions }
        requires stamps { length self.old.machine.stamps.items ≡ length self.old.machine.cells.items }
        requires forth { from ≤ to }
        requires within { to ≤ length (listed self.old.instructions) }
        ensures later { from ≤ result }
        ensures within { result ≤ to }
        ensures goes { GoesTo (listed self.old.instructions) inputs.now self.old.machine.instant from result (cells_in self.old.machine) (cells_in self.new.machine) }
        ensures stops { result < to → Stops (listed self.old.instructions) inputs.now result (cells_in self.new.machine) }
        ensures on { IsOnCells self.old self.new }
        ensures same { result ≡ from → self.new ≡ self.old }
    {
        self.instructions.execute(
            inputs,
            from,
            to,
            self.machine.instant,
            self.machine.cells.as_mut_slice(),
            self.machine.stamps.as_mut_slice(),
            self.machine.taken.as_mut_slice(),
        )
    }
}
