//! A run with worker threads.

ghost use Rattle.std.specs.Prelude.{◌≡◌, ◌≤◌, ◌<◌, ◌+◌, ◌++◌, ◌^◌};
ghost use Rattle.sig_work.specs.Prelude.{ℕ, List, Err, IfErr, IfOk, OnErr, OnOk, length, vec_capacity, IsWholeRun, TookSome, AreFlowsFor, Reaction, Rose, TookPrefix};
ghost use Rattle.sig_work.specs.Gathered.{AreDealt};
ghost use Rattle.sig_work.specs.Members.{run_of};
ghost use Rattle.sig_work.specs.Running.{AreBegun, AreBegunInSome, AreKept, WereHalted, WereRun};
ghost use Rattle.sig_work.specs.Shares.{HaveEnded};
ghost use Rattle.sig_work.specs.declared.answer.WorkAnswer.{WorkAnswer};

use crate::answer::WorkAnswer;
use crate::dealing::deal;
use crate::gathering::{gather, give_up};
use crate::serving::serve;
use crate::share::Share;
use crate::workers::with_caller;
use sig_halt::Halt;
use sig_kernel::{Inputs, a_kernel_has_one_longest_trace};
use sig_meaning_laws::named_causes_exist_once;
use sig_plan::{Ended, Plan};
use sig_step::plans_are_accepted;
use sig_text::{Gate, Sink, WriteFault};
use std::alloc::{AllocError, Global};
use std::sync::Wait;
use std::sync::atomic::AtomicBool;
use std::thread;
use std::thread::Threads;

/// Runs a plan over flows, up to a limit of instants, on so many workers, over links of a capacity: the sink gets the
/// text of the longest trace, and the answer is the number of its instants with the named cause. Cluster k is run by
/// worker `k mod workers`, of which this thread is the last, the collector by this thread too, and so are the clusters
/// of a worker that cannot be started. All memory is taken before the first step.
pub fn run<R: Threads + Wait + Sync, S: Sink, G: Gate + Sync>(
    rt: &R,
    alloc: Global,
    plan: &Plan,
    inputs: &Inputs,
    capacity: u32,
    limit: u32,
    workers: u32,
    gate: &G,
    sink: &mut S,
) -> Result<Ended, WorkAnswer>
    requires fits { AreFlowsFor plan.now.kernel inputs.now }
    requires capacity { (1 ≤ capacity) × (capacity ≤ 65536) }
    requires limit { limit + 1 < 2 ^ 32 }
    requires workers { workers ≤ 64 }
    ensures whole { IfOk result (IsWholeRun plan.now inputs.now limit S.took sink.old sink.new) }
    ensures prefix { result ≡ Err WorkAnswer.WriteFault → TookSome plan.now inputs.now limit S.took sink.old sink.new }
    ensures failed { result ≡ Err WorkAnswer.WriteFault → Rose (S.faults sink.old) (S.faults sink.new) }
    ensures faults_stay { S.faults sink.old ≤ S.faults sink.new }
    ensures memory { result ≡ Err WorkAnswer.OutOfMemory → sink.new ≡ sink.old }
{
    let Ok(start) = prepared(alloc, plan, inputs, capacity, limit, workers) else {
        return Err(WorkAnswer::OutOfMemory);
    };
    let Start {
        halt,
        mine,
        others,
        refused,
    } = start;
    plans_are_accepted(plan);
    named_causes_exist_once();
    a_kernel_has_one_longest_trace();
    let (shares, result) = run_shares(
        rt,
        plan,
        inputs,
        &halt,
        others,
        mine,
        refused.as_slice(),
        gate,
        sink,
    );
    match result {
        Ok(()) => Ok(gather(rt, plan, inputs, halt, shares)),
        Err(WriteFault) => {
            give_up(rt, plan, inputs, &halt, shares);
            Err(WorkAnswer::WriteFault)
        }
    }
}

/// What a run begins with: the word, the share of the caller, with room for all others, those of workers,
/// and for each of these whether its thread was refused.
#[derive(Drop)]
struct Start {
    halt: Halt,
    mine: Vec<Share>,
    others: Vec<Share>,
    refused: Vec<AtomicBool>,
}

/// Takes all memory that a run needs.
fn prepared(
    alloc: Global,
    plan: &Plan,
    inputs: &Inputs,
    capacity: u32,
    limit: u32,
    workers: u32,
) -> Result<Start, WorkAnswer>
    requires fits { AreFlowsFor plan.now.kernel inputs.now }
    requires capacity { (1 ≤ capacity) × (capacity ≤ 65536) }
    requires limit { limit + 1 < 2 ^ 32 }
    requires workers { workers ≤ 64 }
    ensures dealt { IfOk result (λ start. AreDealt (run_of plan.now inputs.now capacity limit) workers start.halt (start.others.items ++ start.mine.items)) }
    ensures mine { IfOk result (λ start. length start.mine.items ≡ 1) }
    ensures room { IfOk result (λ start. length start.others.items + 1 ≤ vec_capacity start.mine) }
    ensures flags { IfOk result (λ start. length start.others.items ≤ length start.refused.items) }
    ensures memory { IfErr result (λ answer. answer ≡ WorkAnswer.OutOfMemory) }
{
    let (halt, mut others) = deal(alloc, plan, inputs, capacity, limit, workers)?;
    let mut mine = Vec::with_capacity(alloc, others.len())?;
    let refused = flags(alloc, others.len())?;
    let Some(last) = others.pop() else {
        unreachable!()
    };
    mine.push_reserved(last);
    Ok(Start {
        halt,
        mine,
        others,
        refused,
    })
}

/// So many flags, none of them set.
fn flags(alloc: Global, count: usize) -> Result<Vec<AtomicBool>, AllocError>
    ensures { IfOk result (λ flags. length flags.items ≡ count) }
{
    let mut flags = Vec::with_capacity(alloc, count)?;
    for _ in 0..count {
        flags.push_reserved(AtomicBool::new(false));
    }
    Ok(flags)
}

/// Serves all shares to their end, those of others on threads of their own as far as these can be started.
fn run_shares<R: Threads + Wait + Sync, S: Sink, G: Gate + Sync>(
    rt: &R,
    plan: &Plan,
    inputs: &Inputs,
    word: &Halt,
    others: Vec<Share>,
    mine: Vec<Share>,
    refused: &[AtomicBool],
    gate: &G,
    sink: &mut S,
) -> (Vec<Share>, Result<(), WriteFault>)
    requires run { AreBegunInSome plan.now inputs.now word.now others.items mine.items }
    requires room { length others.items + length mine.items ≤ vec_capacity mine }
    requires flags { length others.items ≤ length refused.now }
    ensures kept { AreKept (others.items ++ mine.items) result.0.items }
    ensures ended { OnOk result.1 (HaveEnded result.0.items) }
    ensures served { (capacity limit : ℕ) (committed : List Reaction) → AreBegun (run_of plan.now inputs.now capacity limit) word.now committed others.items mine.items
        → OnOk result.1 (WereRun S.took (run_of plan.now inputs.now capacity limit) word.now (others.items ++ mine.items) result.0.items sink.old sink.new committed) }
    ensures stopped { (capacity limit : ℕ) (committed : List Reaction) → AreBegun (run_of plan.now inputs.now capacity limit) word.now committed others.items mine.items
        → OnErr result.1 (WereHalted (TookPrefix S.took) (run_of plan.now inputs.now capacity limit) result.0.items sink.old sink.new committed) }
    ensures failed { OnErr result.1 (Rose (S.faults sink.old) (S.faults sink.new)) }
    ensures faults_stay { S.faults sink.old ≤ S.faults sink.new }
{
    let (mut shares, result) = run_threads(
        rt, plan, inputs, word, others, mine, refused, gate, sink,
    );
    match result {
        Ok(()) => {
            // No clause says that a thread served its share: one that came back unserved is served here.
            let again = serve(rt, plan, inputs, word, &mut shares, gate, sink);
            (shares, again)
        }
        Err(WriteFault) => (shares, Err(WriteFault)),
    }
}

/// Starts and joins the threads of workers, and serves the caller's shares in between.
fn run_threads<R: Threads + Wait + Sync, S: Sink, G: Gate + Sync>(
    rt: &R,
    plan: &Plan,
    inputs: &Inputs,
    word: &Halt,
    others: Vec<Share>,
    mine: Vec<Share>,
    refused: &[AtomicBool],
    gate: &G,
    sink: &mut S,
) -> (Vec<Share>, Result<(), WriteFault>)
    requires run { AreBegunInSome plan.now inputs.now word.now others.items mine.items }
    requires room { length others.items + length mine.items ≤ vec_capacity mine }
    requires flags { length others.items ≤ length refused.now }
    ensures kept { AreKept (others.items ++ mine.items) result.0.items }
    ensures served { (capacity limit : ℕ) (committed : List Reaction) → AreBegun (run_of plan.now inputs.now capacity limit) word.now committed others.items mine.items
        → OnOk result.1 (WereRun S.took (run_of plan.now inputs.now capacity limit) word.now (others.items ++ mine.items) result.0.items sink.old sink.new committed) }
    ensures stopped { (capacity limit : ℕ) (committed : List Reaction) → AreBegun (run_of plan.now inputs.now capacity limit) word.now committed others.items mine.items
        → OnErr result.1 (WereHalted (TookPrefix S.took) (run_of plan.now inputs.now capacity limit) result.0.items sink.old sink.new committed) }
    ensures failed { OnErr result.1 (Rose (S.faults sink.old) (S.faults sink.new)) }
    ensures faults_stay { S.faults sink.old ≤ S.faults sink.new }
{
    // The sink comes back with the answer, since of what a scope's closure borrowed only that is told.
    let (shares, result, _sink) = thread::scope(
        thread::scope_env(),
        rt,
        move |scope| -> (Vec<Share>, Result<(), WriteFault>, &mut S)
            requires run { AreBegunInSome plan.now inputs.now word.now others.items mine.items }
            requires room { length others.items + length mine.items ≤ vec_capacity mine }
            requires flags { length others.items ≤ length refused.now }
        {
            let (shares, result) = with_caller(
                scope, rt, plan, inputs, word, others, mine, refused, gate, &mut *sink,
            );
            (shares, result, sink)
        },
    );
    (shares, result)
}
