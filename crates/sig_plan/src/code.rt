//! The code of an actor.

ghost use Rattle.std.specs.Prelude.{◌≡◌};

use sig_base::OpId;
use sig_dd::Ref;
use std::marker::Model;

/// What a step does: an operation, the sending of a value on a link or its receipt, the report of a
/// cluster or its receipt, or the commit of a reaction.
#[derive(Clone, Copy, Debug, PartialEq, Eq)]
pub enum StepKind {
    Do(OpId),
    Send(u32),
    Receive(u32),
    Report(u32),
    Collect(u32),
    Commit,
}

/// A step: what it does, its position, and the slot of its guard.
#[derive(Clone, Copy, Debug, PartialEq, Eq)]
pub struct Step {
    pub kind: StepKind,
    pub pos: u32,
    pub slot: u32,
}

/// A guard of a code, and its parent: the last slot before it whose guard its own guard implies.
#[derive(Clone, Copy, Debug, PartialEq, Eq)]
pub struct Slot {
    pub guard: Ref,
    pub parent: Option<u32>,
}

/// The code of an actor: its steps, and their different guards in the order of their first steps.
#[derive(Debug, Drop)]
pub struct Code {
    pub steps: Vec<Step>,
    pub slots: Vec<Slot>,
}

impl Model for Code {
    ghost use Rattle.sig_plan.specs.Codes.{CodeView};

    ghost Value = { CodeView };

    ghost view = { λ code. record { steps = code.steps.items; slots = code.slots.items } };
}

impl Code {
    /// The steps.
    pub fn steps(&self) -> &[Step]
        ensures { result.now ≡ self.now.steps }
    {
        self.steps.as_slice()
    }

    /// The slots.
    pub fn slots(&self) -> &[Slot]
        ensures { result.now ≡ self.now.slots }
    {
        self.slots.as_slice()
    }
}
