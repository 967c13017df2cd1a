//! Where an instant goes on behind a run.

ghost use Rattle.std.specs.Prelude.{◌≡◌, ◌≤◌, ◌<◌, if◌then◌else◌};
ghost use Rattle.sig_cells.specs.Prelude.{true, false, not, nat_lt, IfOk, Some, length, slice_get, Holds};
ghost use Rattle.sig_cells.specs.Guards.{AreBelow, scope_of};
ghost use Rattle.sig_cells.specs.inner.Implied.{IsTold};
ghost use Rattle.sig_cells.specs.inner.Tests.{IsTest, is_end};
ghost use Rattle.sig_cells.specs.inner.Ways.{AreDone, ArePassed, AreRuns, AreWays, AreWaysOf, AskAmong, IsFirst, IsStretch};
ghost use Rattle.sig_cells.specs.declared.stretches.Run.{Run};
ghost use Rattle.sig_cells.specs.declared.test.Test.{Test};

use crate::implied::is_told;
use crate::runs::is_inside;
use crate::stretches::{Known, Run, Stretch, Ways};
use crate::test::Test;
use crate::tests::test_where;
use sig_base::SigId;
use sig_dd::{Ref, Store};
use std::alloc::{AllocError, Global};

/// How many runs in a row are looked at that are passed over.
const MOST_PASSED: usize = 4;

/// How many runs in a row are looked at that are done.
const MOST_DONE: usize = 16;

/// Where an instant begins.
pub(crate) fn first_of(store: &Store, conditions: &[SigId], signals: usize, runs: &[Run]) -> Stretch
    requires below { AreBelow signals conditions.now }
    requires runs { AreRuns store.now.nodes runs.now }
    requires told { AskAmong store.now.nodes conditions.now runs.now }
    ensures { IsFirst (scope_of store.now.nodes conditions.now signals) runs.now result }
{
    let always = known_of(store.constant(true), true);
    Stretch {
        from: 0,
        to: 0,
        place: 0,
        test: test_at(store, conditions, signals, runs, always, 0),
    }
}

/// What is done from each run on.
pub(crate) fn ways_of(
    alloc: Global,
    store: &Store,
    conditions: &[SigId],
    signals: usize,
    runs: &[Run],
) -> Result<Vec<Ways>, AllocError>
    requires below { AreBelow signals conditions.now }
    requires runs { AreRuns store.now.nodes runs.now }
    requires told { AskAmong store.now.nodes conditions.now runs.now }
    ensures { IfOk result (λ ways. AreWays (scope_of store.now.nodes conditions.now signals) runs.now ways.items) }
{
    let mut ways = Vec::new(alloc);
    for place in 0..runs.len() {
        ways.push(ways_from(store, conditions, signals, runs, place))?;
    }
    Ok(ways)
}

/// What is done from the run of a place on.
fn ways_from(
    store: &Store,
    conditions: &[SigId],
    signals: usize,
    runs: &[Run],
    place: usize,
) -> Ways
    requires place { place < length runs.now }
    requires below { AreBelow signals conditions.now }
    requires runs { AreRuns store.now.nodes runs.now }
    requires told { AskAmong store.now.nodes conditions.now runs.now }
    ensures { (run : Run) → slice_get runs.now place ≡ Some run → AreWaysOf (scope_of store.now.nodes conditions.now signals) runs.now place run result }
{
    let run = runs[place];
    let guard = run.guard;
    if is_inside(runs, place) {
        Ways {
            guard,
            on: walked(runs, place, run.end),
            off: walked(runs, run.skip, run.skip),
        }
    } else {
        let on = known_of(guard, true);
        let off = known_of(guard, false);
        let open = first_open(store, runs, off, run.skip);
        Ways {
            guard,
            on: stretch_from(store, conditions, signals, runs, on, place, run.end),
            off: stretch_from(store, conditions, signals, runs, off, open, open),
        }
    }
}

/// A guard with a truth.
fn known_of(guard: Ref, truth: bool) -> Known
    ensures { result ≡ record { guard = guard; truth = truth } }
{
    Known { guard, truth }
}

/// A stretch behind which the guard is told by a walk, or that is the last one.
fn walked(runs: &[Run], from: usize, to: usize) -> Stretch
    ensures from { result.from ≡ from }
    ensures to { result.to ≡ to }
    ensures place { result.place ≡ to }
    ensures walk { result.test ≡ (if nat_lt to (length runs.now) then Test.Walk else Test.End) }
{
    let test = if to < runs.len() {
        Test::Walk
    } else {
        Test::End
    };
    Stretch {
        from,
        to,
        place: to,
        test,
    }
}

/// The stretch from a place on where the truth of a guard is known, with that all up to another place are done.
fn stretch_from(
    store: &Store,
    conditions: &[SigId],
    signals: usize,
    runs: &[Run],
    known: Known,
    from: usize,
    done: usize,
) -> Stretch
    requires known { Holds store.now.nodes known.guard }
    requires forth { from ≤ done }
    requires within { done ≤ length runs.now }
    requires done { AreDone store.now.nodes runs.now known from done }
    requires below { AreBelow signals conditions.now }
    requires runs { AreRuns store.now.nodes runs.now }
    requires told { AskAmong store.now.nodes conditions.now runs.now }
    ensures from { result.from ≡ from }
    ensures to { done ≤ result.to }
    ensures stretch { IsStretch (scope_of store.now.nodes conditions.now signals) runs.now known result }
{
    let to = last_done(store, runs, known, done);
    let place = first_open(store, runs, known, to);
    let test = test_at(store, conditions, signals, runs, known, place);
    Stretch {
        from,
        to,
        place,
        test,
    }
}

/// The place up to which all instructions from another one on are known to be done.
fn last_done(store: &Store, runs: &[Run], known: Known, from: usize) -> usize
    requires known { Holds store.now.nodes known.guard }
    requires from { from ≤ length runs.now }
    requires runs { AreRuns store.now.nodes runs.now }
    ensures later { from ≤ result }
    ensures within { result ≤ length runs.now }
    ensures done { AreDone store.now.nodes runs.now known from result }
{
    let mut place = from;
    for _ in 0..MOST_DONE {
        if place >= runs.len() {
            break;
        }
        let run = runs[place];
        if !is_on(store, known, run.guard) {
            break;
        }
        place = run.end;
    }
    place
}

/// Whether a guard holds wherever another one has a truth.
fn is_on(store: &Store, known: Known, guard: Ref) -> bool
    requires known { Holds store.now.nodes known.guard }
    requires guard { Holds store.now.nodes guard }
    ensures { result ≡ true → IsTold store.now.nodes known (record { guard = guard; truth = true }) }
{
    is_told(store, known, known_of(guard, true))
}

/// The first place from which on the instructions are not known to be passed over.
fn first_open(store: &Store, runs: &[Run], known: Known, from: usize) -> usize
    requires known { Holds store.now.nodes known.guard }
    requires from { from ≤ length runs.now }
    requires runs { AreRuns store.now.nodes runs.now }
    ensures later { from ≤ result }
    ensures within { result ≤ length runs.now }
    ensures passed { ArePassed store.now.nodes runs.now known from result }
{
    let mut place = from;
    for _ in 0..MOST_PASSED {
        if place >= runs.len() {
            break;
        }
        let run = runs[place];
        if !is_off(store, known, run.guard) {
            break;
        }
        place = run.skip;
    }
    place
}

/// Whether a guard does not hold wherever another one has a truth.
fn is_off(store: &Store, known: Known, guard: Ref) -> bool
    requires known { Holds store.now.nodes known.guard }
    requires guard { Holds store.now.nodes guard }
    ensures { result ≡ true → IsTold store.now.nodes known (record { guard = guard; truth = false }) }
{
    is_told(store, known, known_of(guard, false))
}

/// How the guard of the run of a place is told, where the truth of another one is known.
fn test_at(
    store: &Store,
    conditions: &[SigId],
    signals: usize,
    runs: &[Run],
    known: Known,
    place: usize,
) -> Test
    requires known { Holds store.now.nodes known.guard }
    requires below { AreBelow signals conditions.now }
    requires runs { AreRuns store.now.nodes runs.now }
    requires told { AskAmong store.now.nodes conditions.now runs.now }
    ensures told { (run : Run) → slice_get runs.now place ≡ Some run → IsTest (scope_of store.now.nodes conditions.now signals) known run.guard result }
    ensures end { is_end result ≡ not (nat_lt place (length runs.now)) }
{
    if place < runs.len() {
        match test_where(store, conditions, signals, known, runs[place].guard) {
            Test::End => Test::Walk,
            test => test,
        }
    } else {
        Test::End
    }
}
