//! Guards: where signals are present, as functions of the truths that are proposed for conditions.

ghost use Rattle.std.specs.Prelude.{◌≡◌, ◌+◌, ◌*◌, ◌==◌, ◌≤◌};
ghost use Rattle.sig_solve.specs.Prelude.{ℕ, true, length, slice_get, None, Some, IfOk, Contains, MatchOption, SigId, AreInOrder, IsSignal, IsStore, Keeps, Share, refusal};
ghost use Rattle.sig_solve.specs.inner.Asked.{AreProposed, ArePlaced, ForgetsAllBut, IsAskedIn, variables_of};
ghost use Rattle.sig_solve.specs.inner.Guards.{AreGuards, IsGuard};

use crate::asked::Asked;
use crate::known::known_of;
use sig_base::SigId;
use sig_dd::{DdAnswer, Ref, Store};
use sig_rel::System;
use std::alloc::{AllocError, Global};

/// The guards of the least signals of the clock classes, at their places.
pub(crate) fn guards_of(
    alloc: Global,
    asked: &Asked,
    store: &mut Store,
    conditions: &[SigId],
) -> Result<Vec<Ref>, DdAnswer>
    requires asked { IsAskedIn store.old asked.now }
    requires conditions { AreInOrder asked.now.frame.kernel.now conditions.now }
    requires few { length conditions.now ≤ 512 }
    ensures store { IsStore store.new }
    ensures kept { Keeps store.old store.new }
    ensures value { IfOk result (λ guards.
        AreGuards store.new.nodes asked.now.frame conditions.now guards.items) }
    ensures share { Share ((2 + 2 * asked.now.system.variables)
        * length asked.now.frame.leaders.items)
        (variables_of asked.now.system) store.old store.new (refusal result) }
{
    let places = places_of(alloc, &asked.system, conditions)?;
    let places = places.as_slice();
    let known = known_of(alloc, &asked.system, Vec::from_slice(alloc, conditions)?)?;
    let forgotten = known.forgotten.as_slice();
    let mut guards = vec![in alloc; store.constant(false); asked.frame.least.len()]?;
    for leader in asked.frame.leaders.as_slice() {
        let guard = guard(asked, store, *leader, conditions, forgotten, places)?;
        guards[*leader as usize] = guard;
    }
    Ok(guards)
}

/// The guard of a signal, from what is forgotten beside the proposals of conditions, and from their
/// places.
fn guard(
    asked: &Asked,
    store: &mut Store,
    signal: u32,
    conditions: &[SigId],
    forgotten: &[bool],
    places: &[u32],
) -> Result<Ref, DdAnswer>
    requires asked { IsAskedIn store.old asked.now }
    requires signal { IsSignal asked.now.frame.kernel.now signal }
    requires conditions { AreInOrder asked.now.frame.kernel.now conditions.now }
    requires known { ForgetsAllBut asked.now.system conditions.now forgotten.now }
    requires places { ArePlaced asked.now.system conditions.now places.now }
    ensures store { IsStore store.new }
    ensures kept { Keeps store.old store.new }
    ensures value { IfOk result (IsGuard store.new.nodes asked.now.frame conditions.now signal) }
    ensures share { Share (2 + 2 * asked.now.system.variables) (variables_of asked.now.system)
        store.old store.new (refusal result) }
{
    let _conditions = conditions;
    let proposed = asked.where_present(store, signal, forgotten)?;
    store.rename(proposed, places)
}

/// To each variable the place of the condition of which it is the proposal; 0 to the others.
fn places_of(alloc: Global, system: &System, conditions: &[SigId]) -> Result<Vec<u32>, AllocError>
    requires proposed { AreProposed system.now }
    requires all { (c : SigId) → Contains system.now.conditions c → Contains conditions.now c }
    requires few { length conditions.now ≤ 512 }
    ensures { IfOk result (λ places. ArePlaced system.now conditions.now places.items) }
{
    let proposals = system.proposals.as_slice();
    let end = system.first as usize + system.variables as usize;
    let mut places = vec![in alloc; 0; end]?;
    for (number, condition) in system.conditions.as_slice().iter().enumerate() {
        places[proposals[number] as usize] = place_of(conditions, *condition);
    }
    Ok(places)
}

/// The place of a condition among others.
fn place_of(conditions: &[SigId], condition: SigId) -> u32
    requires there { Contains conditions.now condition }
    requires few { length conditions.now ≤ 512 }
    ensures { slice_get conditions.now result ≡ Some condition }
{
    for (place, other) in conditions.iter().enumerate() {
        if other.0 == condition.0 {
            return place as u32;
        }
    }
    unreachable!()
}
