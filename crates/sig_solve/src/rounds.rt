//! The rounds of a kernel whose system is free: in which classes enter, as conditions become known.

ghost use Rattle.std.specs.Prelude.{◌≡◌, ◌==◌, ◌≢◌, ◌<◌, ◌≤◌, ◌+◌};
ghost use Rattle.sig_solve.specs.Prelude.{ℕ, suc, true, length, map, slice_index_or, Some, Err, IfOk, Contains, list_any, conditions_of, IsSignal, IsStore};
ghost use Rattle.sig_solve.specs.Frames.{IsAmong, IsFrame};
ghost use Rattle.sig_solve.specs.inner.Free.{AreNeeds, IsFreeIn, is_unknown_to};
ghost use Rattle.sig_solve.specs.inner.Rounds.{AreEntered, AreRounds, AreSettled, IsOpenAnswer};

use crate::frame::Frame;
use crate::layers::{Layers, entered, zeros};
use crate::needs::needs_of;
use sig_base::SigId;
use sig_dd::{DdAnswer, Store, VariableList};
use sig_rel::System;
use std::alloc::{AllocError, Global};

/// The layers of a kernel, of which the system is given. A class enters in a round where its presence
/// depends on proposals of conditions of earlier rounds alone. What each presence depends on is asked
/// once, before the rounds.
pub(crate) fn rounds_of(
    alloc: Global,
    frame: &Frame,
    system: &System,
    store: &Store,
) -> Result<Layers, DdAnswer>
    requires frame { IsFrame frame.now }
    requires few { length frame.now.kernel.now.signals ≤ 512 }
    requires free { IsFreeIn frame.now.kernel.now store.now system.now }
    requires conditions { system.now.conditions ≡ conditions_of frame.now.kernel.now }
    ensures value { IfOk result (λ layers.
        AreSettled frame.now layers.numbers.items layers.waiting.items) }
    ensures no_budget { (n : ℕ) → result ≢ Err (DdAnswer.Budget n) }
{
    let conditions = system.conditions.as_slice();
    let needs = needs_of(frame, system, store)?;
    let needs = needs.as_slice();
    let mut numbers = zeros(alloc, frame.least.len())?;
    let mut waiting = Vec::from_slice(alloc, frame.leaders.as_slice())?;
    for round in 0..frame.leaders.len() as u32 {
        let known = entered(alloc, frame, numbers.as_slice(), conditions)?;
        let known = known.as_slice();
        let still = enter(
            alloc,
            frame,
            system,
            store,
            needs,
            known,
            round,
            waiting.as_slice(),
            &mut numbers,
        )?;
        if still.len() == waiting.len() {
            return Ok(Layers {
                numbers,
                waiting: still,
            });
        }
        waiting = still;
    }
    Ok(Layers { numbers, waiting })
}

/// One round: gives a layer to the classes that the known conditions determine, and gives those that
/// are still open.
fn enter(
    alloc: Global,
    frame: &Frame,
    system: &System,
    store: &Store,
    needs: &[VariableList],
    known: &[SigId],
    round: u32,
    waiting: &[u32],
    layers: &mut [u32],
) -> Result<Vec<u32>, AllocError>
    requires frame { IsFrame frame.now }
    requires free { IsFreeIn frame.now.kernel.now store.now system.now }
    requires needs { AreNeeds store.now.nodes system.now needs.now }
    requires entered { AreEntered frame.now.kernel.now round known.now }
    requires rounds { AreRounds frame.now round layers.old waiting.now }
    requires few { round < 512 }
    ensures value { IfOk result (λ still. AreRounds frame.now (suc round) layers.new still.items
        × (length still.items ≤ length waiting.now)
        × (length still.items ≡ length waiting.now
        → (s : ℕ) → Contains waiting.now s → Contains still.items s)) }
{
    let unknown = unknown_of(alloc, system.conditions.as_slice(), known)?;
    let unknown = unknown.as_slice();
    let mut still = Vec::new(alloc);
    for class in waiting {
        if is_open(frame, system, store, needs, known, unknown, *class) {
            still.push(*class)?;
        } else {
            layers[*class as usize] = round + 1;
        }
    }
    Ok(still)
}

/// Whether the presence of a signal depends on the proposal of a condition that is not known. The
/// conditions of the first rounds are known.
fn is_open(
    _frame: &Frame,
    _system: &System,
    _store: &Store,
    needs: &[VariableList],
    _known: &[SigId],
    unknown: &[bool],
    signal: u32,
) -> bool
    requires free { IsFreeIn _frame.now.kernel.now _store.now _system.now }
    requires needs { AreNeeds _store.now.nodes _system.now needs.now }
    requires entered { (round : ℕ) × AreEntered _frame.now.kernel.now round _known.now }
    requires unknown { unknown.now ≡ map (λ condition. is_unknown_to _known.now (Some condition)) _system.now.conditions }
    requires signal { IsSignal _frame.now.kernel.now signal }
    ensures { IsOpenAnswer _frame.now.kernel.now (IsAmong _known.now) signal result }
{
    is_one_unknown(unknown, needs[signal as usize].as_slice())
}

/// Whether one of these variables is marked as unknown.
fn is_one_unknown(unknown: &[bool], variables: &[u32]) -> bool
    ensures { result ≡ list_any (λ v. slice_index_or unknown.now v true) variables.now }
{
    variables.iter().any(|v| is_unknown(unknown, *v))
}

/// Whether a variable is marked as unknown; one past the end is.
fn is_unknown(unknown: &[bool], v: u32) -> bool
    ensures { result ≡ slice_index_or unknown.now v true }
{
    unknown.get(v as usize).copied().unwrap_or(true)
}

/// To each condition whether it is not known.
fn unknown_of(alloc: Global, conditions: &[SigId], known: &[SigId]) -> Result<Vec<bool>, AllocError>
    ensures { IfOk result (λ unknown. unknown.items
        ≡ map (λ condition. is_unknown_to known.now (Some condition)) conditions.now) }
{
    conditions
        .iter()
        .map(|condition| !is_known(known, *condition))
        .collect(alloc)
}

/// Whether a condition is known.
fn is_known(known: &[SigId], condition: SigId) -> bool
    ensures { result ≡ list_any (λ other. other.0 == condition.0) known.now }
{
    known.iter().any(|other| other.0 == condition.0)
}
