//! Instructions in a row that have one guard.

ghost use Rattle.std.specs.Prelude.{◌≡◌, ◌<◌, ◌+◌};
ghost use Rattle.sig_cells.specs.Prelude.{true, IfOk, length, Holds, Implies};
ghost use Rattle.sig_cells.specs.inner.Ways.{AreHeld, AreRuns, IsLeft, IsRun, guards_of};

use crate::implied::is_told;
use crate::stretches::{Known, Run};
use sig_dd::{Ref, Store};
use std::alloc::{AllocError, Global};

/// The run that begins at each place of instructions with these guards.
pub(crate) fn runs_of(alloc: Global, store: &Store, guards: &[Ref]) -> Result<Vec<Run>, AllocError>
    requires { AreHeld store.now.nodes guards.now }
    ensures guards { IfOk result (λ runs. guards_of runs.items ≡ guards.now) }
    ensures each { IfOk result (λ runs. AreRuns store.now.nodes runs.items) }
{
    let mut runs = single_runs(alloc, store, guards)?;
    join(store, &mut runs);
    leave(store, &mut runs);
    Ok(runs)
}

/// At each place a run of its own.
fn single_runs(alloc: Global, _store: &Store, guards: &[Ref]) -> Result<Vec<Run>, AllocError>
    requires { AreHeld _store.now.nodes guards.now }
    ensures guards { IfOk result (λ runs. guards_of runs.items ≡ guards.now) }
    ensures each { IfOk result (λ runs. AreRuns _store.now.nodes runs.items) }
{
    let mut runs = Vec::new(alloc);
    for place in 0..guards.len() {
        runs.push(Run {
            guard: guards[place],
            end: place + 1,
            skip: place + 1,
        })?;
    }
    Ok(runs)
}

/// Makes runs longer by those behind them that have the same guard.
fn join(_store: &Store, runs: &mut Vec<Run>)
    requires { AreRuns _store.now.nodes runs.old.items }
    ensures guards { guards_of runs.new.items ≡ guards_of runs.old.items }
    ensures each { AreRuns _store.now.nodes runs.new.items }
{
    let places = runs.len();
    for behind in 1..places {
        join_next(_store, runs, places - 1 - behind);
    }
}

/// Makes the run at a place longer by the next one, where that has the same guard.
fn join_next(_store: &Store, runs: &mut Vec<Run>, place: usize)
    requires place { place + 1 < length runs.old.items }
    requires runs { AreRuns _store.now.nodes runs.old.items }
    ensures guards { guards_of runs.new.items ≡ guards_of runs.old.items }
    ensures each { AreRuns _store.now.nodes runs.new.items }
{
    let next = runs[place + 1];
    let guard = runs[place].guard;
    if guard == next.guard {
        runs[place] = Run {
            guard,
            end: next.end,
            skip: next.end,
        };
    }
}

/// Leaves each run where the instructions behind it are no more done only where its guard holds.
fn leave(store: &Store, runs: &mut Vec<Run>)
    requires { AreRuns store.now.nodes runs.old.items }
    ensures guards { guards_of runs.new.items ≡ guards_of runs.old.items }
    ensures each { AreRuns store.now.nodes runs.new.items }
{
    let places = runs.len();
    for behind in 0..places {
        let place = places - 1 - behind;
        if !is_inside(runs.as_slice(), place) {
            leave_at(store, runs, place);
        }
    }
}

/// Whether a place lies inside a run that begins before it, so that no instant goes on there.
pub(crate) fn is_inside(runs: &[Run], place: usize) -> bool
    requires { place < length runs.now }
{
    place > 0 && runs[place - 1].end > place
}

/// Leaves the run of a place there.
fn leave_at(store: &Store, runs: &mut Vec<Run>, place: usize)
    requires place { place < length runs.old.items }
    requires runs { AreRuns store.now.nodes runs.old.items }
    ensures guards { guards_of runs.new.items ≡ guards_of runs.old.items }
    ensures each { AreRuns store.now.nodes runs.new.items }
{
    let run = runs[place];
    let skip = skip_of(store, runs.as_slice(), place, run);
    runs[place] = Run { skip, ..run };
}

/// Where the run of a place may be left, if its guard does not hold.
fn skip_of(store: &Store, runs: &[Run], _place: usize, run: Run) -> usize
    requires runs { AreRuns store.now.nodes runs.now }
    requires run { IsRun store.now.nodes runs.now _place run }
    ensures { IsLeft store.now.nodes runs.now _place run result }
{
    let mut skip = run.end;
    while skip < runs.len() {
        let next = runs[skip];
        if !is_within(store, next.guard, run.guard) {
            break;
        }
        skip = next.skip;
    }
    skip
}

/// Whether one guard holds only where another one does, as far as one way down their diagrams shows.
fn is_within(store: &Store, guard: Ref, other: Ref) -> bool
    requires guard { Holds store.now.nodes guard }
    requires other { Holds store.now.nodes other }
    ensures { result ≡ true → Implies store.now.nodes guard other }
{
    let known = Known {
        guard: other,
        truth: false,
    };
    let told = Known {
        guard,
        truth: false,
    };
    is_told(store, known, told)
}
