//! What an actor does on its machine.

ghost use Rattle.std.specs.Prelude.{◌≡◌, ◌<◌};
ghost use Rattle.sig_machine.specs.Prelude.{ℕ, ℤ, List, IfSome, Some, length, PlanView, Op, with_signal};
ghost use Rattle.sig_machine.specs.ActorMachines.{IsMachineOfActor, IsOpOfStep, IsStepDone, actor_in, instant_of, seen_in};

use crate::actor::ActorMachine;
use sig_base::SigId;
use sig_kernel::Inputs;
use sig_plan::Plan;

impl ActorMachine {
    /// Does the operation of a step of the actor, and tells whether it has a value; nothing changes where it has none. It
    /// takes no memory.
    #[inline(always)]
    pub fn follow(&mut self, plan: &Plan, actor: u32, number: u32, inputs: &Inputs) -> bool
        requires machine { IsMachineOfActor plan.now actor inputs.now self.old }
        requires op { (op : Op) × IsOpOfStep plan.now actor number op }
        ensures done { (op : Op) → IsOpOfStep plan.now actor number op → IsStepDone plan.now.kernel inputs.now op result self.old self.new }
        ensures machine { IsMachineOfActor plan.now actor inputs.now self.new }
    {
        self.follow_row(plan, actor, number, 1, inputs) > 0
    }

    /// Writes the register of a signal, where there is one.
    #[inline(always)]
    pub fn write(&mut self, target: Option<SigId>, value: i64)
        requires { (plan : PlanView) × (k : ℕ) × (flows : List (List ℤ)) × IsMachineOfActor plan k flows self.old
            × IfSome target (λ x. x.0 < length plan.kernel.signals) }
        ensures actor { (step : ℕ) → actor_in self.new step ≡ record (actor_in self.old step) { registers = with_signal target (Some value) (seen_in self.old) } }
        ensures seen { seen_in self.new ≡ with_signal target (Some value) (seen_in self.old) }
        ensures instant { instant_of self.new ≡ instant_of self.old }
        ensures machine { (plan : PlanView) (k : ℕ) (flows : List (List ℤ)) → IsMachineOfActor plan k flows self.old
            → IsMachineOfActor plan k flows self.new }
    {
        if let Some(x) = target {
            self.own = self.own.with(x.0);
            self.machine.put(x.0, value);
            self.tell(x.0, value);
        }
    }
}
