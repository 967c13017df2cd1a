//! The signals that an actor imports: those that it begins with, closed under the conditions that the
//! guards of the operations need which write them.

ghost use Rattle.std.specs.Prelude.{◌≡◌, ◌∷◌, [], IfOk, OnOk, length};
ghost use Rattle.sig_part.specs.inner.Closing.{AreClosed, Visits, is_elsewhere};

use crate::marks::{Marks, unmarked};
use crate::needs::Conditions;
use sig_base::{SigId, Signal};
use std::alloc::{AllocError, Global};

/// Marks the signals of other actors that an actor begins with, and to each marked one the conditions
/// of other actors that are needed for it.
pub(crate) fn closed(
    alloc: Global,
    signals: &[Signal],
    needed: &[Conditions],
    actor: u32,
    seeds: &[SigId],
) -> Result<Marks, AllocError>
    requires { length needed.now ≡ length signals.now }
    ensures { IfOk result (AreClosed (is_elsewhere signals.now actor) needed.now seeds.now) }
{
    let mut marks = unmarked(alloc, signals.len())?;
    let mut waiting = Vec::new(alloc);
    visit(signals, actor, seeds, &mut marks, &mut waiting)?;
    while let Some(x) = waiting.pop() {
        let conditions = needed[x.0 as usize].as_slice();
        visit(signals, actor, conditions, &mut marks, &mut waiting)?;
    }
    Ok(Marks::from(marks))
}

/// Marks those of these signals that are other actors', and lets those wait that were not marked before.
fn visit(
    signals: &[Signal],
    actor: u32,
    list: &[SigId],
    marks: &mut [bool],
    waiting: &mut Vec<SigId>,
) -> Result<(), AllocError>
    requires { length marks.old ≡ length signals.now }
    ensures { OnOk result (Visits (is_elsewhere signals.now actor) list.now marks.old marks.new waiting.old.items waiting.new.items) }
{
    for x in list {
        mark(signals, actor, *x, marks, waiting)?;
    }
    Ok(())
}

/// Marks a signal that is another actor's, and lets it wait where it was not marked before.
fn mark(
    signals: &[Signal],
    actor: u32,
    x: SigId,
    marks: &mut [bool],
    waiting: &mut Vec<SigId>,
) -> Result<(), AllocError>
    requires { length marks.old ≡ length signals.now }
    ensures { OnOk result (Visits (is_elsewhere signals.now actor) (x ∷ []) marks.old marks.new waiting.old.items waiting.new.items) }
{
    if !is_elsewhere(signals, actor, x) {
        return Ok(());
    }
    let number = x.0 as usize;
    if marks[number] {
        return Ok(());
    }
    marks[number] = true;
    waiting.push(x)?;
    Ok(())
}

/// Whether there is such a signal, and it is another actor's.
fn is_elsewhere(signals: &[Signal], actor: u32, x: SigId) -> bool
    ensures { result ≡ is_elsewhere signals.now actor x }
{
    match signals.get(x.0 as usize) {
        Some(owner) => owner.cluster != actor,
        None => false,
    }
}
