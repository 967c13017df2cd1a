//! The maximal clocks of a kernel.

ghost use Rattle.std.specs.Prelude.{◌≡◌, ◌+◌, ◌≤◌};
ghost use Rattle.sig_pace.specs.Prelude.{ℕ, length, IfErr, IfOk, IsStore, Keeps, Share, refusal, IsValid, IsSystem};
ghost use Rattle.sig_pace.specs.inner.Asked.{IsAskedIn, variables_of};
ghost use Rattle.sig_pace.specs.inner.Leaders.{AreLeaders};
ghost use Rattle.sig_pace.specs.Refusals.{KeepsToSystemShare};
ghost use Rattle.sig_pace.specs.inner.Tops.{AreMaxima, signals_of};

use crate::asked::{Asked, asked_of};
use crate::candidates::{Candidate, candidates_of};
use crate::covering::uncovered;
use crate::leaders::class_leaders;
use crate::tops::tops_among;
use sig_clock::condition_set;
use sig_dd::{DdAnswer, Store};
use sig_kernel::Kernel;
use sig_rel::{RelAnswer, System, system};
use std::alloc::{AllocError, Global};

/// The least signals of a kernel's maximal clocks, by number.
pub(crate) fn maximal_clocks(
    alloc: Global,
    kernel: &Kernel,
    store: &mut Store,
) -> Result<Vec<u32>, RelAnswer>
    requires valid { IsValid kernel.now }
    ensures store { IsStore store.new }
    ensures kept { Keeps store.old store.new }
    ensures value { IfOk result (λ least. AreMaxima kernel.now least.items) }
    ensures share { KeepsToSystemShare kernel.now store.old store.new result }
{
    let _nodes = store.len();
    let conditions = condition_set(alloc, kernel)?;
    let conditions = conditions.as_slice();
    let leaders = class_leaders(alloc, kernel)?;
    let leaders = leaders.as_slice();
    let system = system(alloc, kernel, conditions, store)?;
    let maxima = maxima_of(alloc, kernel, system, leaders, store)?;
    Ok(maxima)
}

/// The same, by the system and the least signals of the clock classes.
fn maxima_of(
    alloc: Global,
    kernel: &Kernel,
    system: System,
    leaders: &[u32],
    store: &mut Store,
) -> Result<Vec<u32>, DdAnswer>
    requires was_store { IsStore store.old }
    requires system { IsSystem kernel.now store.old.nodes system }
    requires leaders { AreLeaders kernel.now leaders.now }
    ensures store { IsStore store.new }
    ensures kept { Keeps store.old store.new }
    ensures value { IfOk result (λ least. AreMaxima kernel.now least.items) }
    ensures share { Share (1 + length leaders.now) (variables_of system)
        store.old store.new (refusal result) }
{
    let asked = asked_of(kernel, system, store)?;
    maxima_asked(alloc, &asked, leaders, store)
}

/// The same, by the solutions.
fn maxima_asked(
    alloc: Global,
    asked: &Asked,
    leaders: &[u32],
    store: &mut Store,
) -> Result<Vec<u32>, DdAnswer>
    requires asked { IsAskedIn store.old asked.now }
    requires leaders { AreLeaders asked.now.kernel.now leaders.now }
    ensures store { IsStore store.new }
    ensures kept { Keeps store.old store.new }
    ensures value { IfOk result (λ least. AreMaxima asked.now.kernel.now least.items) }
    ensures share { Share (length leaders.now) (variables_of asked.now.system)
        store.old store.new (refusal result) }
{
    let found = uncovered(alloc, asked, leaders, store)?;
    let signals = found.as_slice();
    let made = candidates_of(alloc, asked, signals, store)?;
    let candidates = made.as_slice();
    let left = tops_among(alloc, asked, candidates, store)?;
    let tops = left.as_slice();
    let least = signals_of(alloc, tops)?;
    Ok(least)
}

/// The signals of candidates.
fn signals_of(alloc: Global, candidates: &[Candidate]) -> Result<Vec<u32>, AllocError>
    ensures { IfOk result (λ signals. signals.items ≡ signals_of candidates.now) }
{
    candidates
        .iter()
        .map(|candidate| candidate.signal)
        .collect(alloc)
}
