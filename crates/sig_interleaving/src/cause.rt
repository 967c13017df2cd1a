//! The end of a run.

ghost use Rattle.std.specs.Prelude.{◌≡◌, ◌-◌};
ghost use Rattle.sig_interleaving.specs.Prelude.{Some, Core as ModelCore, cause_of};
ghost use Rattle.sig_interleaving.specs.Cores.{IsCore, Shows, given_of};
ghost use Rattle.sig_interleaving.specs.Finishing.{cause_of_number, instants_of};

use crate::state::Core;
use sig_base::{OpId, Place};
use sig_plan::{Cause, Ended};
use sig_step::{ops_of, order_of};

impl<'a> Core<'a> {
    /// The instants before that of the collector, and the cause that the failure word names.
    pub(crate) fn ended(&self) -> Ended
        requires { IsCore self.now }
        ensures instants { result.instants ≡ instants_of self.now }
        ensures cause { (m : ModelCore) → Shows m self.now → result.cause ≡ cause_of self.now.plan.now self.now.inputs.now m m.word }
    {
        Ended {
            instants: self.instants(),
            cause: self.cause(),
        }
    }

    /// How many instants are before that of the collector, which has the last code.
    fn instants(&self) -> u32
        requires { IsCore self.now }
        ensures { result ≡ instants_of self.now }
    {
        match self.states.last() {
            Some(collector) => collector.instant() - 1,
            None => 0,
        }
    }

    /// The cause that the failure word names.
    fn cause(&self) -> Cause
        ensures { (m : ModelCore) → Shows m self.now → result ≡ cause_of self.now.plan.now self.now.inputs.now m m.word }
    {
        match self.word() {
            Some(place) => self.cause_at(place),
            None => Cause::Limit,
        }
    }

    /// Why the operation at a place has no value; the limit where it has one, or where there is none.
    fn cause_at(&self, place: Place) -> Cause
        ensures { (m : ModelCore) → Shows m self.now → result ≡ cause_of self.now.plan.now self.now.inputs.now m (Some place) }
    {
        match order_of(self.plan).get(place.pos as usize / 2) {
            Some(o) => self.cause_of_op(*o),
            None => Cause::Limit,
        }
    }

    /// Why an operation has no value.
    fn cause_of_op(&self, o: OpId) -> Cause
        ensures { (m : ModelCore) → Shows m self.now → result ≡ cause_of_number self.now m o }
    {
        let Some(op) = ops_of(self.plan).get(o.0 as usize) else {
            return Cause::Limit;
        };
        match self.states.get(op.actor as usize) {
            Some(state) => state.cause_of_op(self.plan, self.inputs, o),
            None => Cause::Limit,
        }
    }
}
