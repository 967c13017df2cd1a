//! The serving of shares.

ghost use Rattle.std.specs.Prelude.{◌≡◌, ◌≤◌, ◌<◌};
ghost use Rattle.sig_work.specs.Prelude.{ℕ, List, Ok, OnErr, OnOk, length, Reaction, Rose, TookPrefix};
ghost use Rattle.sig_work.specs.Members.{run_of};
ghost use Rattle.sig_work.specs.inner.Rounds.{HasEndedAt, HaveEndedAt, IsShareOfSome, KeepsShare, KeepsShares, ServesShare, ServesShares};
ghost use Rattle.sig_work.specs.Shares.{AllEnded, AreOfRun, AreOfSomeRun, AreSameShares, HaveEnded, WereServed, WereStopped};
ghost use Rattle.sig_work.specs.declared.round.Round.TheVariants.{Ended};

use crate::lead::Lead;
use crate::patience::Patience;
use crate::round::Round;
use crate::share::Share;
use crate::stopping::stop_all;
use sig_halt::Halt;
use sig_kernel::Inputs;
use sig_plan::Plan;
use sig_text::{Gate, Sink, WriteFault};
use std::sync::Wait;

/// Acts the actors of these shares in turn until all of them have ended. The sink gets the text of the
/// reactions that are committed among them. After a fault of the sink the place (0, 0) is recorded, and all
/// actors of the shares have ended. It takes no memory, and may wait.
pub fn serve<R: Wait, S: Sink, G: Gate>(
    rt: &R,
    plan: &Plan,
    inputs: &Inputs,
    halt: &Halt,
    shares: &mut [Share],
    gate: &G,
    sink: &mut S,
) -> Result<(), WriteFault>
    requires run { AreOfSomeRun plan.now inputs.now halt.now shares.old }
    ensures same { AreSameShares shares.old shares.new }
    ensures ended { HaveEnded shares.new }
    ensures served { (capacity limit : ℕ) (committed : List Reaction) → AreOfRun (run_of plan.now inputs.now capacity limit) halt.now committed shares.old
        → OnOk result (WereServed S.took (run_of plan.now inputs.now capacity limit) halt.now shares.old shares.new sink.old sink.new committed) }
    ensures stopped { (capacity limit : ℕ) (committed : List Reaction) → AreOfRun (run_of plan.now inputs.now capacity limit) halt.now committed shares.old
        → OnErr result (WereStopped (TookPrefix S.took) (run_of plan.now inputs.now capacity limit) halt.now shares.new sink.old sink.new committed) }
    ensures failed { OnErr result (Rose (S.faults sink.old) (S.faults sink.new)) }
    ensures faults_stay { S.faults sink.old ≤ S.faults sink.new }
{
    match serve_on(rt, plan, inputs, halt, shares, gate, sink) {
        Ok(()) => {
            halt.tell();
            Ok(())
        }
        Err(fault) => {
            stop_all(halt, shares);
            halt.leave(shares.len());
            Err(fault)
        }
    }
}

/// Acts the actors of these shares until all of them have ended, or the sink fails.
fn serve_on<R: Wait, S: Sink, G: Gate>(
    rt: &R,
    plan: &Plan,
    inputs: &Inputs,
    halt: &Halt,
    shares: &mut [Share],
    gate: &G,
    sink: &mut S,
) -> Result<(), WriteFault>
    requires run { AreOfSomeRun plan.now inputs.now halt.now shares.old }
    ensures keeps { KeepsShares shares.old shares.new }
    ensures ended { OnOk result (HaveEnded shares.new) }
    ensures serves { OnOk result (ServesShares S.took plan.now inputs.now halt.now shares.old shares.new sink.old sink.new) }
    ensures part { OnErr result (ServesShares (TookPrefix S.took) plan.now inputs.now halt.now shares.old shares.new sink.old sink.new) }
    ensures failed { OnErr result (Rose (S.faults sink.old) (S.faults sink.new)) }
    ensures faults_stay { S.faults sink.old ≤ S.faults sink.new }
{
    let mut patience = Patience::new(plan, halt, shares);
    let lead = Lead::new(plan, shares);
    'rounds: for _ in rt.forever() {
        let end = lead.end(shares);
        match serve_round(rt, plan, inputs, halt, shares, end, gate, sink)? {
            Round::Ended => {
                if patience.is_over(shares) {
                    return Ok(());
                }
                patience.wait(rt, shares);
            }
            Round::Still => patience.wait(rt, shares),
            Round::Moved | Round::Stuck => patience.renew(shares),
        }
    }
    unreachable!()
}

/// One round of the shares, in which no cluster comes past the end of instants.
fn serve_round<R: Wait, S: Sink, G: Gate>(
    rt: &R,
    plan: &Plan,
    inputs: &Inputs,
    halt: &Halt,
    shares: &mut [Share],
    end: u32,
    gate: &G,
    sink: &mut S,
) -> Result<Round, WriteFault>
    requires run { AreOfSomeRun plan.now inputs.now halt.now shares.old }
    ensures keeps { KeepsShares shares.old shares.new }
    ensures ended { result ≡ Ok Ended → HaveEnded shares.new }
    ensures serves { OnOk result (ServesShares S.took plan.now inputs.now halt.now shares.old shares.new sink.old sink.new) }
    ensures part { OnErr result (ServesShares (TookPrefix S.took) plan.now inputs.now halt.now shares.old shares.new sink.old sink.new) }
    ensures failed { OnErr result (Rose (S.faults sink.old) (S.faults sink.new)) }
    ensures faults_stay { S.faults sink.old ≤ S.faults sink.new }
{
    let mut round = Round::Ended;
    for at in 0..shares.len() {
        round = round.and(advance_at(rt, plan, inputs, halt, shares, at, end, gate, sink)?);
    }
    Ok(round)
}

/// One round of one of the shares.
fn advance_at<R: Wait, S: Sink, G: Gate>(
    rt: &R,
    plan: &Plan,
    inputs: &Inputs,
    halt: &Halt,
    shares: &mut [Share],
    at: usize,
    end: u32,
    gate: &G,
    sink: &mut S,
) -> Result<Round, WriteFault>
    requires run { AreOfSomeRun plan.now inputs.now halt.now shares.old }
    requires there { at < length shares.old }
    ensures keeps { KeepsShares shares.old shares.new }
    ensures ended { result ≡ Ok Ended → HaveEndedAt shares.new at }
    ensures serves { OnOk result (ServesShares S.took plan.now inputs.now halt.now shares.old shares.new sink.old sink.new) }
    ensures part { OnErr result (ServesShares (TookPrefix S.took) plan.now inputs.now halt.now shares.old shares.new sink.old sink.new) }
    ensures failed { OnErr result (Rose (S.faults sink.old) (S.faults sink.new)) }
    ensures faults_stay { S.faults sink.old ≤ S.faults sink.new }
{
    shares[at].advance(rt, plan, inputs, halt, end, gate, sink)
}

impl Share {
    /// One round of the share's actors.
    fn advance<R: Wait, S: Sink, G: Gate>(
        &mut self,
        rt: &R,
        plan: &Plan,
        inputs: &Inputs,
        halt: &Halt,
        end: u32,
        gate: &G,
        sink: &mut S,
    ) -> Result<Round, WriteFault>
        requires run { IsShareOfSome plan.now inputs.now halt.now self.old }
        ensures keeps { KeepsShare self.old self.new }
        ensures ended { result ≡ Ok Ended → AllEnded self.new }
        ensures serves { OnOk result (ServesShare S.took plan.now inputs.now halt.now self.old self.new sink.old sink.new) }
        ensures part { OnErr result (ServesShare (TookPrefix S.took) plan.now inputs.now halt.now self.old self.new sink.old sink.new) }
        ensures failed { OnErr result (Rose (S.faults sink.old) (S.faults sink.new)) }
        ensures faults_stay { S.faults sink.old ≤ S.faults sink.new }
    {
        let mut round = Round::Ended;
        for number in 0..self.members.len() {
            round = round.and(self.advance_member(
                rt, plan, inputs, halt, number, end, gate, sink,
            )?);
        }
        Ok(round)
    }

    /// The turn of one of its actors.
    fn advance_member<R: Wait, S: Sink, G: Gate>(
        &mut self,
        rt: &R,
        plan: &Plan,
        inputs: &Inputs,
        halt: &Halt,
        number: usize,
        end: u32,
        gate: &G,
        sink: &mut S,
    ) -> Result<Round, WriteFault>
        requires run { IsShareOfSome plan.now inputs.now halt.now self.old }
        requires there { number < length self.old.members.items }
        ensures keeps { KeepsShare self.old self.new }
        ensures ended { result ≡ Ok Ended → HasEndedAt self.new number }
        ensures serves { OnOk result (ServesShare S.took plan.now inputs.now halt.now self.old self.new sink.old sink.new) }
        ensures part { OnErr result (ServesShare (TookPrefix S.took) plan.now inputs.now halt.now self.old self.new sink.old sink.new) }
        ensures failed { OnErr result (Rose (S.faults sink.old) (S.faults sink.new)) }
        ensures faults_stay { S.faults sink.old ≤ S.faults sink.new }
    {
        let member = &mut self.members[number];
        member.advance(rt, plan, inputs, halt, &mut self.seat, end, gate, sink)
    }
}
