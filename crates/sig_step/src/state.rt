//! The state of one actor.

ghost use Rattle.std.specs.Prelude.{◌≡◌, ◌<◌, ◌↔◌, if◌then◌else◌};
ghost use Rattle.sig_step.specs.Prelude.{ℤ, List, false, true, length, slice_get, IsTrue, Some, packed, code_of, PlanView};

use crate::moving::step_in;
use crate::plans::code_at;
use sig_base::Place;
use sig_machine::ActorMachine;
use sig_plan::{Plan, Step};

/// What is known of the guard of a slot.
#[derive(Clone, Copy, Debug, PartialEq, Eq)]
pub struct Mark {
    /// The instant in which the guard was met last, 0 where it was not yet.
    pub instant: u32,
    /// Whether it held.
    pub holds: bool,
}

/// The state of an actor: how far it is, up to which instant it runs, what it has of each signal, each
/// delay and each input, and what it knows of the guards of its code.
#[derive(Drop)]
pub struct ClusterState {
    pub(crate) actor: u32,
    pub(crate) limit: u32,
    pub(crate) step: u32,
    /// The position of the next step.
    pub(crate) pos: u32,
    pub(crate) ended: bool,
    pub(crate) values: ActorMachine,
    /// By slot.
    pub(crate) marks: Vec<Mark>,
    /// By step: up to which step operations of one slot come one after another.
    pub(crate) rows: Vec<u32>,
}

impl ClusterState {
    ghost use Rattle.sig_step.specs.States.{IsStateOf, actor_of, place_of};

    /// The place of the next step.
    pub fn next_place(&self) -> Place
        ensures { result ≡ place_of self.now }
    {
        Place {
            instant: self.values.instant(),
            pos: self.pos,
        }
    }

    /// The instant, from 1.
    pub fn instant(&self) -> u32
        ensures { result ≡ (actor_of self.now).instant }
    {
        self.values.instant()
    }

    /// The index of the next step in the code, from 0.
    pub fn step(&self) -> u32
        ensures { result ≡ (actor_of self.now).step }
    {
        self.step
    }

    /// Whether the actor has ended.
    pub fn ended(&self) -> bool
        ensures { result ≡ (actor_of self.now).ended }
    {
        self.ended
    }

    /// Ends a running actor where the word is before its next place, and tells whether it did.
    pub fn look(&mut self, word: u64) -> bool
        ensures answer { IsTrue result ↔ ((self.old.ended ≡ false) × (word < packed (place_of self.old))) }
        ensures state { self.new ≡ (if result then record self.old { ended = true } else self.old) }
        ensures kept { (plan : PlanView) (flows : List (List ℤ)) → IsStateOf plan flows self.old → IsStateOf plan flows self.new }
    {
        if self.ended || word >= self.next_place().pack() {
            return false;
        }
        self.ended = true;
        true
    }

    /// The steps of the actor's code.
    #[inline(always)]
    pub(crate) fn code<'a>(&self, plan: &'a Plan) -> &'a [Step]
        requires { self.now.actor < length plan.now.codes }
        ensures { result.now ≡ (code_of plan.now self.now.actor).steps }
    {
        code_at(plan, self.actor).steps()
    }

    /// The actor's next step.
    #[inline(always)]
    pub(crate) fn next_step(&self, plan: &Plan) -> Step
        requires actor { self.now.actor < length plan.now.codes }
        requires step { self.now.step < length (code_of plan.now self.now.actor).steps }
        ensures { slice_get (code_of plan.now self.now.actor).steps self.now.step ≡ Some result }
    {
        step_in(self.code(plan), self.step)
    }

    /// The same, where these are the steps of the actor's code.
    #[inline(always)]
    pub(crate) fn next_step_in(&self, _plan: &Plan, code: &[Step]) -> Step
        requires code { code.now ≡ (code_of _plan.now self.now.actor).steps }
        requires step { self.now.step < length (code_of _plan.now self.now.actor).steps }
        ensures { slice_get (code_of _plan.now self.now.actor).steps self.now.step ≡ Some result }
    {
        step_in(code, self.step)
    }
}
