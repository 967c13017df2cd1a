//! The threads of workers.

ghost use Rattle.std.specs.Prelude.{◌≡◌, ◌≤◌, ◌+◌, ◌++◌};
ghost use Rattle.sig_work.specs.Prelude.{ℕ, List, OnErr, OnOk, length, vec_capacity, Reaction, Rose, TookPrefix};
ghost use Rattle.sig_work.specs.Members.{run_of};
ghost use Rattle.sig_work.specs.Running.{AreBegun, AreBegunInSome, AreKept, IsOfSomeClusters, IsServedAs, WereHalted, WereRun};

use crate::serving::serve;
use crate::share::Share;
use sig_halt::Halt;
use sig_kernel::Inputs;
use sig_plan::Plan;
use sig_text::{Gate, QuietSink, Sink, WriteFault};
use std::slice;
use std::snapshot::Snapshot;
use std::sync::Wait;
use std::sync::atomic::{AtomicBool, Ordering};
use std::thread::{Promise, Scope, Threads};

/// What is promised of a share that a thread serves.
#[derive(Drop)]
struct Service<'a> {
    plan: &'a Plan,
    inputs: &'a Inputs,
    word: &'a Halt,
    share: Snapshot<Share>,
}

impl<'a> Promise<Share> for Service<'a> {
    ghost use Rattle.sig_work.specs.Running.{IsServedAs};

    ghost kept_by = { λ p share. IsServedAs p.plan.now p.inputs.now p.word.now p.share.value share };
}

/// Starts a thread for each of the first shares but the last of these, which it serves itself beside its own, and joins
/// all threads.
pub(crate) fn with_caller<'s, E: 's, R: Threads + Wait + Sync, S: Sink, G: Gate + Sync>(
    scope: &'s Scope<'s, E>,
    rt: &'s R,
    plan: &'s Plan,
    inputs: &'s Inputs,
    word: &'s Halt,
    mut others: Vec<Share>,
    mut mine: Vec<Share>,
    refused: &'s [AtomicBool],
    gate: &'s G,
    sink: &mut S,
) -> (Vec<Share>, Result<(), WriteFault>)
    requires run { AreBegunInSome plan.now inputs.now word.now others.items mine.items }
    requires room { length others.items + length mine.items ≤ vec_capacity mine }
    requires flags { length others.items ≤ length refused.now }
    ensures kept { AreKept (others.items ++ mine.items) result.0.items }
    ensures capacity { vec_capacity result.0 ≡ vec_capacity mine }
    ensures served { (capacity limit : ℕ) (committed : List Reaction) → AreBegun (run_of plan.now inputs.now capacity limit) word.now committed others.items mine.items
        → OnOk result.1 (WereRun S.took (run_of plan.now inputs.now capacity limit) word.now (others.items ++ mine.items) result.0.items sink.old sink.new committed) }
    ensures stopped { (capacity limit : ℕ) (committed : List Reaction) → AreBegun (run_of plan.now inputs.now capacity limit) word.now committed others.items mine.items
        → OnErr result.1 (WereHalted (TookPrefix S.took) (run_of plan.now inputs.now capacity limit) result.0.items sink.old sink.new committed) }
    ensures failed { OnErr result.1 (Rose (S.faults sink.old) (S.faults sink.new)) }
    ensures faults_stay { S.faults sink.old ≤ S.faults sink.new }
{
    let Some(share) = others.pop() else {
        return with_workers(
            scope, rt, plan, inputs, word, others, mine, refused, gate, sink,
        );
    };
    mine.push_reserved(share);
    with_workers(
        scope, rt, plan, inputs, word, others, mine, refused, gate, sink,
    )
}

/// Starts a thread for each of the first shares, serves the others beside those whose thread cannot be
/// started, and joins all threads.
fn with_workers<'s, E: 's, R: Threads + Wait + Sync, S: Sink, G: Gate + Sync>(
    scope: &'s Scope<'s, E>,
    rt: &'s R,
    plan: &'s Plan,
    inputs: &'s Inputs,
    word: &'s Halt,
    mut others: Vec<Share>,
    mut mine: Vec<Share>,
    refused: &'s [AtomicBool],
    gate: &'s G,
    sink: &mut S,
) -> (Vec<Share>, Result<(), WriteFault>)
    requires run { AreBegunInSome plan.now inputs.now word.now others.items mine.items }
    requires room { length others.items + length mine.items ≤ vec_capacity mine }
    requires flags { length others.items ≤ length refused.now }
    ensures kept { AreKept (others.items ++ mine.items) result.0.items }
    ensures capacity { vec_capacity result.0 ≡ vec_capacity mine }
    ensures served { (capacity limit : ℕ) (committed : List Reaction) → AreBegun (run_of plan.now inputs.now capacity limit) word.now committed others.items mine.items
        → OnOk result.1 (WereRun S.took (run_of plan.now inputs.now capacity limit) word.now (others.items ++ mine.items) result.0.items sink.old sink.new committed) }
    ensures stopped { (capacity limit : ℕ) (committed : List Reaction) → AreBegun (run_of plan.now inputs.now capacity limit) word.now committed others.items mine.items
        → OnErr result.1 (WereHalted (TookPrefix S.took) (run_of plan.now inputs.now capacity limit) result.0.items sink.old sink.new committed) }
    ensures failed { OnErr result.1 (Rose (S.faults sink.old) (S.faults sink.new)) }
    ensures faults_stay { S.faults sink.old ≤ S.faults sink.new }
{
    let Some(share) = others.pop() else {
        let result = serve(rt, plan, inputs, word, &mut mine, gate, sink);
        return (mine, result);
    };
    let promise = Service {
        plan,
        inputs,
        word,
        share: Snapshot::of(&share),
    };
    let flag = &refused[others.len()];
    match scope.spawn_with(promise, move || {
        served(rt, plan, inputs, word, share, flag, gate)
    }) {
        Ok(handle) => {
            let (mut shares, result) = with_workers(
                scope, rt, plan, inputs, word, others, mine, refused, gate, sink,
            );
            shares.push_reserved(handle.join(rt));
            (shares, result)
        }
        Err(back) => {
            flag.store(true, Ordering::SeqCst);
            mine.push_reserved((back.value)());
            with_workers(
                scope, rt, plan, inputs, word, others, mine, refused, gate, sink,
            )
        }
    }
}

/// A share of clusters that was served; where its thread was refused, it comes back as it was.
fn served<R: Wait, G: Gate>(
    rt: &R,
    plan: &Plan,
    inputs: &Inputs,
    word: &Halt,
    mut share: Share,
    refused: &AtomicBool,
    gate: &G,
) -> Share
    requires { IsOfSomeClusters plan.now inputs.now word.now share }
    ensures { IsServedAs plan.now inputs.now word.now share result }
{
    if refused.load(Ordering::SeqCst) {
        return share;
    }
    let _quiet = serve(
        rt,
        plan,
        inputs,
        word,
        slice::from_mut(&mut share),
        gate,
        &mut QuietSink,
    );
    share
}
