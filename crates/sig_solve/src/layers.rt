//! Rounds: in which signals enter, as conditions become known.

ghost use Rattle.std.specs.Prelude.{◌≡◌, ◌+◌, ◌*◌, ◌<◌, ◌≤◌};
ghost use Rattle.sig_solve.specs.Prelude.{ℕ, suc, length, slice_index, filter, replicate, IfOk, OnOk, Contains, conditions_of, IsStore, Keeps, Share, refusal};
ghost use Rattle.sig_solve.specs.inner.Asked.{AreKnown, ForgetsAllBut, IsAskedIn, variables_of};
ghost use Rattle.sig_solve.specs.inner.Awaiting.{AreAwaited};
ghost use Rattle.sig_solve.specs.inner.Rounds.{AreEntered, AreRounds, AreSettled, has_entered, layer_in};

use crate::asked::Asked;
use crate::awaiting::{Guide, guide_of, none_awaited, stays_open};
use crate::frame::Frame;
use crate::known::{Known, known_of};
use sig_base::SigId;
use sig_dd::{DdAnswer, Store};
use std::alloc::{AllocError, Global};

/// The layer of each clock class, at its least signal, and the least signals of the classes that
/// never enter; their layer is 0.
#[derive(Drop)]
pub(crate) struct Layers {
    pub(crate) numbers: Vec<u32>,
    pub(crate) waiting: Vec<u32>,
}

/// The layers of a kernel, of which the conditions are given.
pub(crate) fn layers_of(
    alloc: Global,
    asked: &Asked,
    store: &mut Store,
    conditions: &[SigId],
) -> Result<Layers, DdAnswer>
    requires asked { IsAskedIn store.old asked.now }
    requires conditions { conditions.now ≡ conditions_of asked.now.frame.kernel.now }
    ensures store { IsStore store.new }
    ensures kept { Keeps store.old store.new }
    ensures value { IfOk result (λ layers.
        AreSettled asked.now.frame layers.numbers.items layers.waiting.items) }
    ensures share { Share ((3 + 2 * asked.now.system.variables)
        * length asked.now.frame.leaders.items * length asked.now.frame.leaders.items)
        (variables_of asked.now.system) store.old store.new (refusal result) }
{
    let mut numbers = zeros(alloc, asked.frame.least.len())?;
    let mut waiting = Vec::from_slice(alloc, asked.frame.leaders.as_slice())?;
    let guide = guide_of(alloc, asked, store)?;
    let mut awaited = none_awaited(alloc, asked.frame.least.len())?;
    for round in 0..asked.frame.leaders.len() as u32 {
        let entered = entered(alloc, &asked.frame, numbers.as_slice(), conditions)?;
        let known = known_of(alloc, &asked.system, entered)?;
        let still = pass(
            alloc,
            asked,
            store,
            &known,
            &guide,
            round,
            waiting.as_slice(),
            &mut numbers,
            &mut awaited,
        )?;
        if still.len() == waiting.len() {
            return Ok(Layers {
                numbers,
                waiting: still,
            });
        }
        waiting = still;
    }
    Ok(Layers { numbers, waiting })
}

/// So many zeros.
pub(crate) fn zeros(alloc: Global, count: usize) -> Result<Vec<u32>, AllocError>
    ensures { IfOk result (λ zeros. zeros.items ≡ replicate count 0) }
{
    vec![in alloc; 0; count]
}

/// The conditions whose class has entered.
pub(crate) fn entered(
    alloc: Global,
    frame: &Frame,
    layers: &[u32],
    conditions: &[SigId],
) -> Result<Vec<SigId>, AllocError>
    ensures { IfOk result (λ entered.
        entered.items ≡ filter (has_entered frame.now layers.now) conditions.now) }
{
    let mut entered = Vec::new(alloc);
    for condition in conditions {
        if layer_in(frame, layers, *condition) > 0 {
            entered.push(*condition)?;
        }
    }
    Ok(entered)
}

/// The layer of a signal.
pub(crate) fn layer_in(frame: &Frame, layers: &[u32], signal: SigId) -> u32
    ensures { result ≡ layer_in frame.now layers.now signal.0 }
{
    let least = number_at(frame.least.as_slice(), signal.0);
    number_at(layers, least)
}

/// The number at a place; 0 past the end.
pub(crate) fn number_at(numbers: &[u32], place: u32) -> u32
    ensures { result ≡ slice_index numbers.now place }
{
    match numbers.get(place as usize) {
        Some(number) => *number,
        None => 0,
    }
}

/// One round: gives a layer to the classes that the known conditions determine, and gives those that
/// are still open.
fn pass(
    alloc: Global,
    asked: &Asked,
    store: &mut Store,
    known: &Known,
    guide: &Guide,
    round: u32,
    waiting: &[u32],
    layers: &mut [u32],
    awaited: &mut [Option<u32>],
) -> Result<Vec<u32>, DdAnswer>
    requires asked { IsAskedIn store.old asked.now }
    requires known { AreKnown asked.now.system known.now }
    requires entered { AreEntered asked.now.frame.kernel.now round known.now.conditions.items }
    requires guide { ForgetsAllBut asked.now.system asked.now.system.conditions guide.now.base.items }
    requires rounds { AreRounds asked.now.frame round layers.old waiting.now }
    requires awaited { AreAwaited store.old.nodes asked.now awaited.old }
    requires few { round < 512 }
    ensures store { IsStore store.new }
    ensures kept { Keeps store.old store.new }
    ensures value { IfOk result (λ still. AreRounds asked.now.frame (suc round) layers.new still.items
        × (length still.items ≤ length waiting.now)
        × (length still.items ≡ length waiting.now
        → (s : ℕ) → Contains waiting.now s → Contains still.items s)) }
    ensures awaited { OnOk result (AreAwaited store.new.nodes asked.now awaited.new) }
    ensures share { Share ((3 + 2 * asked.now.system.variables) * length waiting.now)
        (variables_of asked.now.system) store.old store.new (refusal result) }
{
    let mut still = Vec::new(alloc);
    for class in waiting {
        if stays_open(alloc, asked, store, known, guide, awaited, *class)? {
            still.push(*class)?;
        } else {
            layers[*class as usize] = round + 1;
        }
    }
    Ok(still)
}
