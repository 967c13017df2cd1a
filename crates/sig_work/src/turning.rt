//! The turns of one actor of a share.

ghost use Rattle.std.specs.Prelude.{◌≡◌, ◌≤◌};
ghost use Rattle.sig_work.specs.Prelude.{false, true, Ok, OnErr, OnOk, Rose, TookPrefix, last_reaction, outputs_of, seen_lines};
ghost use Rattle.sig_work.specs.inner.Rounds.{IsServedInSome, KeepsMember, KeepsSeat, ServesMember};
ghost use Rattle.sig_work.specs.declared.round.Round.TheVariants.{Ended};

use crate::member::{Ending, Member};
use crate::plans::outputs_of;
use crate::round::Round;
use sig_halt::{Halt, HaltSeat};
use sig_kernel::Inputs;
use sig_plan::Plan;
use sig_step::Acted;
use sig_text::{Gate, Sink, WriteFault};
use std::marker::Brand;
use std::sync::Wait;
use std::sync::ledger::Blank;

/// How many stretches of steps, each within one instant, an actor does before others get their turn.
const STRETCHES_IN_TURN: u32 = 256;

impl Member {
    /// Does steps of the actor until a link refuses, it ends, it comes to the end of instants, or it did its share of
    /// them. It passes the gate at each instant that it begins. The sink gets the text of the reactions that it commits.
    pub(crate) fn advance<R: Wait, S: Sink, G: Gate>(
        &mut self,
        rt: &R,
        plan: &Plan,
        inputs: &Inputs,
        halt: &Halt,
        seat: &mut HaltSeat,
        end: u32,
        gate: &G,
        sink: &mut S,
    ) -> Result<Round, WriteFault>
        requires run { IsServedInSome plan.now inputs.now halt.now self.old seat.old }
        ensures keeps { KeepsMember self.old self.new }
        ensures seat { KeepsSeat seat.old seat.new }
        ensures ended { result ≡ Ok Ended → self.new.state.ended ≡ true }
        ensures serves { OnOk result (ServesMember S.took plan.now inputs.now halt.now self.old seat.old self.new seat.new sink.old sink.new) }
        ensures part { OnErr result (ServesMember (TookPrefix S.took) plan.now inputs.now halt.now self.old seat.old self.new seat.new sink.old sink.new) }
        ensures failed { OnErr result (Rose (S.faults sink.old) (S.faults sink.new)) }
        ensures faults_stay { S.faults sink.old ≤ S.faults sink.new }
    {
        let round = self.go(rt, plan, inputs, halt, seat, end, gate, sink)?;
        self.hand_over(rt, plan, halt);
        Ok(round)
    }

    /// The same, where its ends may hold items behind it.
    fn go<R: Wait, S: Sink, G: Gate>(
        &mut self,
        rt: &R,
        plan: &Plan,
        inputs: &Inputs,
        halt: &Halt,
        seat: &mut HaltSeat,
        end: u32,
        gate: &G,
        sink: &mut S,
    ) -> Result<Round, WriteFault>
        requires run { IsServedInSome plan.now inputs.now halt.now self.old seat.old }
        ensures keeps { KeepsMember self.old self.new }
        ensures seat { KeepsSeat seat.old seat.new }
        ensures ended { result ≡ Ok Ended → self.new.state.ended ≡ true }
        ensures serves { OnOk result (ServesMember S.took plan.now inputs.now halt.now self.old seat.old self.new seat.new sink.old sink.new) }
        ensures part { OnErr result (ServesMember (TookPrefix S.took) plan.now inputs.now halt.now self.old seat.old self.new seat.new sink.old sink.new) }
        ensures failed { OnErr result (Rose (S.faults sink.old) (S.faults sink.new)) }
        ensures faults_stay { S.faults sink.old ≤ S.faults sink.new }
    {
        let mut round = Round::Still;
        for _ in 0..self.stretches(end) {
            match self.turn(rt, plan, inputs, halt, seat, gate, sink)? {
                Round::Moved => round = Round::Moved,
                Round::Stuck => return Ok(Round::Moved),
                Round::Still => break,
                Round::Ended => return Ok(Round::Ended),
            }
        }
        Ok(round)
    }

    /// How many stretches it does at most before others get their turn: none where it has come to the end of instants.
    fn stretches(&self, end: u32) -> u32 {
        if self.state.ended() {
            return 1;
        }
        STRETCHES_IN_TURN.min(end.saturating_sub(self.state.instant()))
    }

    /// Does the actor's next steps within an instant, and notes what the last of them came to. Where a link
    /// refused it looks at the word.
    fn turn<R: Wait, S: Sink, G: Gate>(
        &mut self,
        rt: &R,
        plan: &Plan,
        inputs: &Inputs,
        halt: &Halt,
        seat: &mut HaltSeat,
        gate: &G,
        sink: &mut S,
    ) -> Result<Round, WriteFault>
        requires run { IsServedInSome plan.now inputs.now halt.now self.old seat.old }
        ensures keeps { KeepsMember self.old self.new }
        ensures seat { KeepsSeat seat.old seat.new }
        ensures ended { result ≡ Ok Ended → self.new.state.ended ≡ true }
        ensures serves { OnOk result (ServesMember S.took plan.now inputs.now halt.now self.old seat.old self.new seat.new sink.old sink.new) }
        ensures part { OnErr result (ServesMember (TookPrefix S.took) plan.now inputs.now halt.now self.old seat.old self.new seat.new sink.old sink.new) }
        ensures failed { OnErr result (Rose (S.faults sink.old) (S.faults sink.new)) }
        ensures faults_stay { S.faults sink.old ≤ S.faults sink.new }
    {
        if self.state.ended() {
            return Ok(Round::Ended);
        }
        self.pass(plan, gate);
        self.take_turn(rt, plan, inputs, halt, seat, sink)
    }

    /// Appends the text of the reaction that the collector committed in its last step; where a write fails, a prefix of it.
    fn put_reaction<S: Sink>(&mut self, plan: &Plan, sink: &mut S) -> Result<(), WriteFault>
        ensures all { OnOk result (S.took sink.old (seen_lines (outputs_of plan.now.kernel) (last_reaction plan.now.kernel self.old.state)) sink.new) }
        ensures prefix { OnErr result (TookPrefix S.took sink.old (seen_lines (outputs_of plan.now.kernel) (last_reaction plan.now.kernel self.old.state)) sink.new) }
        ensures failed { OnErr result (Rose (S.faults sink.old) (S.faults sink.new)) }
        ensures faults_stay { S.faults sink.old ≤ S.faults sink.new }
        ensures lines { self.new ≡ record self.old { lines = self.new.lines } }
    {
        if self.lines.has_room_for(outputs_of(plan)) {
            self.state.put_reaction_at_once(plan, &mut self.lines, sink)
        } else {
            self.state.put_reaction(plan, sink)
        }
    }

    /// The same of an actor that runs and has passed the gate.
    fn take_turn<R: Wait, S: Sink>(
        &mut self,
        rt: &R,
        plan: &Plan,
        inputs: &Inputs,
        halt: &Halt,
        seat: &mut HaltSeat,
        sink: &mut S,
    ) -> Result<Round, WriteFault>
        requires run { IsServedInSome plan.now inputs.now halt.now self.old seat.old }
        requires runs { self.old.state.ended ≡ false }
        ensures keeps { KeepsMember self.old self.new }
        ensures seat { KeepsSeat seat.old seat.new }
        ensures ended { result ≡ Ok Ended → self.new.state.ended ≡ true }
        ensures serves { OnOk result (ServesMember S.took plan.now inputs.now halt.now self.old seat.old self.new seat.new sink.old sink.new) }
        ensures part { OnErr result (ServesMember (TookPrefix S.took) plan.now inputs.now halt.now self.old seat.old self.new seat.new sink.old sink.new) }
        ensures failed { OnErr result (Rose (S.faults sink.old) (S.faults sink.new)) }
        ensures faults_stay { S.faults sink.old ≤ S.faults sink.new }
    {
        let step = self.state.step();
        match self.act::<R, Brand>(rt, plan, inputs, halt, Blank::new(1)) {
            Acted::Done => Ok(Round::Moved),
            Acted::Commit => {
                self.put_reaction(plan, sink)?;
                Ok(Round::Moved)
            }
            Acted::Empty(_) | Acted::Full(_) => Ok(self.rest(step, halt, seat)),
            Acted::Failed(place) => {
                self.fail(halt, seat, place);
                Ok(Round::Ended)
            }
            Acted::AtLimit => {
                self.ending = Some(Ending::AtLimit);
                Ok(Round::Ended)
            }
            Acted::Stopped => Ok(Round::Ended),
        }
    }
}
