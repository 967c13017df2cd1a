//! One instant.

ghost use Rattle.std.specs.Prelude.{◌≡◌};
ghost use Rattle.sig_machine.specs.Prelude.{IfErr, OnOk, length, AreFlowsFor};
ghost use Rattle.sig_machine.specs.Instants.{EndsBy, GoesOn};
ghost use Rattle.sig_machine.specs.Lowerings.{Lowers};
ghost use Rattle.sig_machine.specs.Machines.{IsMachineOf};

use crate::lowered::Lowered;
use crate::machine::Machine;
use crate::plans::{named, op_at, store_of};
use sig_kernel::Inputs;
use sig_plan::{Cause, Plan};

impl Machine {
    /// Does all operations of an instant in the compiled order, or tells why the first that has no value has none.
    pub fn react(&mut self, plan: &Plan, lowered: &Lowered, inputs: &Inputs) -> Result<(), Cause>
        requires lowers { Lowers plan.now lowered.now }
        requires fits { AreFlowsFor plan.now.kernel inputs.now }
        requires machine { IsMachineOf plan.now lowered.now inputs.now self.old }
        ensures done { OnOk result (GoesOn plan.now inputs.now self.old 0 self.new (length plan.now.order)) }
        ensures fault { IfErr result (EndsBy plan.now inputs.now self.old 0) }
        ensures machine { IsMachineOf plan.now lowered.now inputs.now self.new }
    {
        match lowered.code.react(
            store_of(plan),
            inputs,
            self.instant,
            self.cells.as_mut_slice(),
            self.stamps.as_mut_slice(),
            self.taken.as_mut_slice(),
        ) {
            Ok(()) => Ok(()),
            Err(fault) => Err(named(op_at(plan, fault.place).eq, fault.cause)),
        }
    }
}
