//! Classes of signals with one clock function.

ghost use Rattle.std.specs.Prelude.{◌≡◌, ◌+◌, ◌^◌, ◌<◌, ◌≤◌};
ghost use Rattle.sig_solve.specs.Prelude.{ℕ, [], length, map, Some, slice_get, IfOk, SigId, Ref};
ghost use Rattle.sig_solve.specs.inner.Classes.{AreClasses, AreFirsts, AreGuardsOf, AreMadeOf, IsPlace, Precedes, guard_at};
ghost use Rattle.sig_solve.specs.Frames.{IsFrame};
ghost use Rattle.sig_solve.specs.inner.Rounds.{AreSettled, layer_in};

use crate::frame::Frame;
use crate::layers::{layer_in, number_at};
use crate::order::{by_layer, first_signals};
use sig_base::SigId;
use sig_clock::Clocks;
use sig_dd::Ref;
use std::alloc::{AllocError, Global};

/// The guard of a signal: that of the least signal of its clock.
fn guard_at(frame: &Frame, guards: &[Ref], signal: SigId) -> Option<Ref>
    ensures { result ≡ guard_at frame.now guards.now signal.0 }
{
    let least = number_at(frame.least.as_slice(), signal.0);
    guards.get(least as usize).copied()
}

/// The place of the first signal with the guard of this one, if there is one.
fn place_of(frame: &Frame, guards: &[Ref], firsts: &[SigId], signal: SigId) -> Option<u32>
    requires { length firsts.now ≤ 1024 }
    ensures { IsPlace frame.now guards.now firsts.now signal.0 result }
{
    let guard = guard_at(frame, guards, signal);
    for (place, first) in firsts.iter().enumerate() {
        if guard_at(frame, guards, *first) == guard {
            return Some(place as u32);
        }
    }
    None
}

/// The first signals of the classes: a root, and then each signal whose guard none before it has.
/// The signals are given in the order of layers.
pub(crate) fn firsts_of(
    alloc: Global,
    frame: &Frame,
    layers: &[u32],
    guards: &[Ref],
    root: SigId,
    ordered: &[SigId],
) -> Result<Vec<SigId>, AllocError>
    requires order { (i j : ℕ) (c d : SigId) → i < j → slice_get ordered.now i ≡ Some c
        → slice_get ordered.now j ≡ Some d → Precedes frame.now layers.now c d }
    requires few { length ordered.now ≤ 512 }
    ensures { IfOk result (λ firsts.
        AreFirsts frame.now layers.now guards.now root ordered.now firsts.items
        × (length firsts.items ≤ length ordered.now + 1)) }
{
    let mut firsts = Vec::new(alloc);
    firsts.push(root)?;
    for signal in ordered {
        match place_of(frame, guards, firsts.as_slice(), *signal) {
            Some(_place) => {}
            None => firsts.push(*signal)?,
        }
    }
    Ok(firsts)
}

/// The class of each signal.
pub(crate) fn classes_of(
    alloc: Global,
    frame: &Frame,
    guards: &[Ref],
    firsts: &[SigId],
) -> Result<Vec<u32>, AllocError>
    requires few { length firsts.now ≤ 1024 }
    requires signals { length frame.now.least.items < 2 ^ 32 }
    requires all { (s : ℕ) → s < length frame.now.least.items
        → (i : ℕ) × (c : SigId) × (slice_get firsts.now i ≡ Some c)
        × (guard_at frame.now guards.now c.0 ≡ guard_at frame.now guards.now s) }
    ensures { IfOk result (λ classes. (length classes.items ≡ length frame.now.least.items)
        × AreClasses frame.now guards.now firsts.now classes.items) }
{
    let mut classes = Vec::new(alloc);
    for signal in 0..frame.least.len() as u32 {
        let Some(place) = place_of(frame, guards, firsts, SigId(signal)) else {
            unreachable!();
        };
        classes.push(place)?;
    }
    Ok(classes)
}

/// The guards of the first signals.
pub(crate) fn guards_at(
    alloc: Global,
    frame: &Frame,
    guards: &[Ref],
    firsts: &[SigId],
) -> Result<Vec<Ref>, AllocError>
    requires { (i : ℕ) (c : SigId) → slice_get firsts.now i ≡ Some c
        → (r : Ref) × (guard_at frame.now guards.now c.0 ≡ Some r) }
    ensures { IfOk result (λ own. AreGuardsOf frame.now guards.now firsts.now own.items) }
{
    let mut own = Vec::new(alloc);
    for first in firsts {
        let Some(guard) = guard_at(frame, guards, *first) else {
            unreachable!();
        };
        own.push(guard)?;
    }
    Ok(own)
}

/// The layers of the first signals.
pub(crate) fn layers_at(
    alloc: Global,
    frame: &Frame,
    layers: &[u32],
    firsts: &[SigId],
) -> Result<Vec<u32>, AllocError>
    ensures { IfOk result (λ own. own.items ≡ map (λ c. layer_in frame.now layers.now c.0) firsts.now) }
{
    let mut own = Vec::new(alloc);
    for first in firsts {
        own.push(layer_in(frame, layers, *first))?;
    }
    Ok(own)
}

/// The clocks of a kernel, from the layers and guards of its clock classes.
pub(crate) fn clocks_of(
    alloc: Global,
    frame: &Frame,
    layers: &[u32],
    conditions: Vec<SigId>,
    guards: &[Ref],
    root: SigId,
) -> Result<Clocks, AllocError>
    requires frame { IsFrame frame.now }
    requires few { length frame.now.kernel.now.signals ≤ 512 }
    requires settled { AreSettled frame.now layers.now [] }
    requires root { root.0 < length frame.now.kernel.now.signals }
    requires guards { (s : ℕ) → s < length frame.now.kernel.now.signals
        → (r : Ref) × (guard_at frame.now guards.now s ≡ Some r) }
    ensures { IfOk result (AreMadeOf frame.now layers.now guards.now root conditions.items) }
{
    let signals = first_signals(alloc, frame.least.len() as u32)?;
    let ordered = by_layer(
        alloc,
        frame,
        layers,
        signals.as_slice(),
        frame.leaders.len() as u32,
    )?;
    let firsts = firsts_of(alloc, frame, layers, guards, root, ordered.as_slice())?;
    let firsts = firsts.as_slice();
    Ok(Clocks {
        class_of: classes_of(alloc, frame, guards, firsts)?,
        guard: guards_at(alloc, frame, guards, firsts)?,
        layer: layers_at(alloc, frame, layers, firsts)?,
        conditions,
    })
}
