//! Steps of the actors.

ghost use Rattle.std.specs.Prelude.{◌≡◌, ◌<◌, ◌≤◌};
ghost use Rattle.sig_interleaving.specs.Prelude.{IfOk, OnErr, OnOk, length, true, Act, Rose, TookPrefix};
ghost use Rattle.sig_interleaving.specs.inner.Acting.{CommitsBy, IsStepped, TakesTurnAt, changes};
ghost use Rattle.sig_interleaving.specs.Cores.{Happened, IsCore, IsSameRun, LeavesLess, TellsChange};

use crate::state::Core;
use sig_dd::Steps;
use sig_step::{Acted, plans_are_accepted};
use sig_text::{Sink, WriteFault};
use std::marker::Brand;
use std::sync::ledger::{Blank, Ledger};

impl<'a> Core<'a> {
    /// Lets an actor do its next step, and appends the text of a reaction that it commits.
    #[inline(always)]
    pub(crate) fn act<S: Sink>(&mut self, k: u32, sink: &mut S) -> Result<bool, WriteFault>
        requires { IsCore self.old }
        ensures core { IsCore self.new }
        ensures run { IsSameRun self.old self.new }
        ensures happened { OnOk result (Happened S.took (Act k) self.old self.new sink.old sink.new) }
        ensures part { OnErr result (Happened (TookPrefix S.took) (Act k) self.old self.new sink.old sink.new) }
        ensures answer { IfOk result (TellsChange self.old (Act k)) }
        ensures changed { OnErr result (TellsChange self.old (Act k) true) }
        ensures left { IfOk result (LeavesLess self.old self.new) }
        ensures failed { OnErr result (Rose (S.faults sink.old) (S.faults sink.new)) }
        ensures faults_stay { S.faults sink.old ≤ S.faults sink.new }
    {
        if k as usize >= self.states.len() {
            return Ok(false);
        }
        match self.step::<Brand>(k, Blank::new(1)) {
            Acted::Commit => {
                self.states[k as usize].put_reaction_at_once(self.plan, &mut self.lines, sink)?;
                Ok(true)
            }
            acted => Ok(changes(acted)),
        }
    }

    /// Lets an actor do its next step.
    #[inline(always)]
    fn step<L: Ledger>(&mut self, k: u32, blank: Blank) -> Acted
        requires core { IsCore self.old }
        requires actor { k < length self.old.states.items }
        requires name { blank.name ≡ L.name }
        requires parts { blank.parts ≡ L.parts }
        requires some { 0 < L.parts }
        ensures core { IsCore self.new }
        ensures run { IsSameRun self.old self.new }
        ensures stepped { IsStepped (Act k) self.old self.new }
        ensures commits { CommitsBy k result self.old self.new }
        ensures answer { TellsChange self.old (Act k) (changes result) }
        ensures left { LeavesLess self.old self.new (changes result) }
    {
        plans_are_accepted(self.plan);
        let acted = self.turn::<L>(k, blank);
        if let Acted::Failed(place) = acted {
            self.word = self.word.min(place.pack());
        }
        acted
    }

    /// Lets an actor do its turn, which may leave a place to be recorded.
    #[inline(always)]
    fn turn<L: Ledger>(&mut self, k: u32, blank: Blank) -> Acted
        requires core { IsCore self.old }
        requires actor { k < length self.old.states.items }
        requires name { blank.name ≡ L.name }
        requires parts { blank.parts ≡ L.parts }
        requires some { 0 < L.parts }
        ensures turn { TakesTurnAt k result self.old self.new }
        ensures stays { self.new ≡ record self.old { states = self.new.states; lists = self.new.lists } }
    {
        plans_are_accepted(self.plan);
        let mut steps = Steps::<L>::new(blank);
        self.states[k as usize].act(self.plan, self.inputs, &mut self.lists, &mut steps)
    }
}

/// Whether a step that answers this changes the state.
#[inline(always)]
fn changes(acted: Acted) -> bool
    ensures { result ≡ changes acted }
{
    match acted {
        Acted::Done | Acted::Commit | Acted::Failed(_) | Acted::AtLimit => true,
        Acted::Empty(_) | Acted::Full(_) | Acted::Stopped => false,
    }
}
