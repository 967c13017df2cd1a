//! Whether known conditions leave a presence open. It is not asked in each round: where a presence stays
//! open whatever is known beside the truth of one variable, it waits until that is known.

ghost use Rattle.std.specs.Prelude.{◌≡◌, ◌≢◌, ◌&&◌, ◌+◌, ◌*◌, ◌<◌};
ghost use Rattle.sig_solve.specs.Prelude.{not, ℕ, true, length, replicate, Err, None, Some, IfOk, OnOk, IsTrue, slice_get, IsSignal, truth_of, IsStore, Keeps, Share, refusal};
ghost use Rattle.sig_solve.specs.inner.Asked.{AreKnown, AreProposed, ForgetsAllBut, IsAskedIn, variables_of};
ghost use Rattle.sig_solve.specs.inner.Awaiting.{AreAwaited, IsApart, IsRest};
ghost use Rattle.sig_solve.specs.Frames.{IsAmong};
ghost use Rattle.sig_solve.specs.inner.Rounds.{AreEntered, IsOpenAnswer};

use crate::asked::Asked;
use crate::known::{Known, known_of};
use crate::needs::needs_of;
use sig_dd::{DdAnswer, Ref, Store, VariableList};
use sig_rel::System;
use std::alloc::{AllocError, Global};

/// What guides the questions: which variables are forgotten where all conditions are known, on which
/// variables each presence depends, and to each variable on how many that of its condition does.
#[derive(Drop)]
pub(crate) struct Guide {
    pub(crate) base: Vec<bool>,
    needs: Vec<VariableList>,
    depths: Vec<usize>,
}

/// Whether a presence is open, and a variable for which it waits, where one was found.
#[derive(Clone, Copy)]
struct Turn {
    open: bool,
    awaits: Option<u32>,
}

/// The guide of a kernel.
pub(crate) fn guide_of(alloc: Global, asked: &Asked, store: &Store) -> Result<Guide, DdAnswer>
    requires { IsAskedIn store.now asked.now }
    ensures value { IfOk result (λ guide.
        ForgetsAllBut asked.now.system asked.now.system.conditions guide.base.items) }
    ensures no_budget { (n : ℕ) → result ≢ Err (DdAnswer.Budget n) }
{
    let base = base_of(alloc, &asked.system)?;
    let needs = needs_of(&asked.frame, &asked.system, store)?;
    let depths = depths_of(alloc, &asked.system, needs.as_slice(), base.len())?;
    Ok(Guide {
        base,
        needs,
        depths,
    })
}

/// The variables that are forgotten where all conditions are known.
fn base_of(alloc: Global, system: &System) -> Result<Vec<bool>, AllocError>
    requires { AreProposed system.now }
    ensures { IfOk result (λ base. ForgetsAllBut system.now system.now.conditions base.items) }
{
    let conditions = Vec::from_slice(alloc, system.conditions.as_slice())?;
    let known = known_of(alloc, system, conditions)?;
    Ok(known.forgotten)
}

/// To each of so many variables on how many variables the presence of its condition depends.
fn depths_of(
    alloc: Global,
    system: &System,
    needs: &[VariableList],
    count: usize,
) -> Result<Vec<usize>, AllocError> {
    (0..count)
        .map(|v| depth_of(system, needs, v))
        .collect(alloc)
}

/// On how many variables the presence of the condition depends of which this is the proposal.
fn depth_of(system: &System, needs: &[VariableList], variable: usize) -> usize {
    let proposals = system.proposals.as_slice();
    match proposals.iter().position(|v| *v as usize == variable) {
        Some(place) => depth_at(system, needs, place),
        None => 0,
    }
}

/// On how many variables the presence of the condition at a place depends.
fn depth_at(system: &System, needs: &[VariableList], place: usize) -> usize {
    match system.conditions.get(place) {
        Some(condition) => match needs.get(condition.0 as usize) {
            Some(variables) => variables.as_slice().len(),
            None => 0,
        },
        None => 0,
    }
}

impl Guide {
    /// A variable for which the presence of a class may wait: the proposal of a condition that is not
    /// known, of those on which the presence depends one whose condition depends on most itself.
    fn hint(&self, known: &Known, class: u32) -> Option<u32> {
        match self.needs.get(class as usize) {
            Some(variables) => self.deepest(known, variables.as_slice()),
            None => None,
        }
    }

    /// Of variables one that is the deepest unknown proposal, if there is one.
    fn deepest(&self, known: &Known, variables: &[u32]) -> Option<u32> {
        let mut best = None;
        let mut most = 0;
        for v in variables {
            let depth = self.depth(known, *v);
            if depth > most {
                best = Some(*v);
                most = depth;
            }
        }
        best
    }

    /// How deep an unknown proposal is; 0 where a variable is none.
    fn depth(&self, known: &Known, v: u32) -> usize {
        let unknown = is_forgotten(known.forgotten.as_slice(), v);
        if !unknown || is_forgotten(self.base.as_slice(), v) {
            return 0;
        }
        match self.depths.get(v as usize) {
            Some(depth) => depth.saturating_add(1),
            None => 0,
        }
    }
}

/// Whether a variable is forgotten.
fn is_forgotten(forgotten: &[bool], v: u32) -> bool
    ensures { result ≡ truth_of forgotten.now v }
{
    forgotten.get(v as usize).copied().unwrap_or(false)
}

/// No variable for which a presence waits, to each of so many signals.
pub(crate) fn none_awaited(alloc: Global, count: usize) -> Result<Vec<Option<u32>>, AllocError>
    ensures { IfOk result (λ awaited. awaited.items ≡ replicate count None) }
{
    vec![in alloc; None; count]
}

/// Whether known conditions leave the presence of a class open. It is not asked where the class waits
/// for a condition that is not known.
pub(crate) fn stays_open(
    alloc: Global,
    asked: &Asked,
    store: &mut Store,
    known: &Known,
    guide: &Guide,
    awaited: &mut [Option<u32>],
    class: u32,
) -> Result<bool, DdAnswer>
    requires asked { IsAskedIn store.old asked.now }
    requires known { AreKnown asked.now.system known.now }
    requires entered { (round : ℕ)
        × AreEntered asked.now.frame.kernel.now round known.now.conditions.items }
    requires guide { ForgetsAllBut asked.now.system asked.now.system.conditions guide.now.base.items }
    requires awaited { AreAwaited store.old.nodes asked.now awaited.old }
    requires class { IsSignal asked.now.frame.kernel.now class }
    ensures store { IsStore store.new }
    ensures kept { Keeps store.old store.new }
    ensures awaited { OnOk result (AreAwaited store.new.nodes asked.now awaited.new) }
    ensures value { IfOk result
        (IsOpenAnswer asked.now.frame.kernel.now (IsAmong known.now.conditions.items) class) }
    ensures share { Share (3 + 2 * asked.now.system.variables) (variables_of asked.now.system)
        store.old store.new (refusal result) }
{
    if is_waiting(known, awaited, class) {
        return Ok(true);
    }
    let hint = guide.hint(known, class);
    let turn = turn_at(alloc, asked, store, known, guide, hint, class)?;
    awaited[class as usize] = turn.awaits;
    Ok(turn.open)
}

/// Whether a class waits for a condition that is not known.
fn is_waiting(known: &Known, awaited: &[Option<u32>], class: u32) -> bool
    ensures { IsTrue result → (v : ℕ) × (slice_get awaited.now class ≡ Some (Some v))
        × (truth_of known.now.forgotten.items v ≡ true) }
{
    match awaited.get(class as usize) {
        Some(Some(v)) => is_forgotten(known.forgotten.as_slice(), *v),
        Some(None) | None => false,
    }
}

/// What a round tells of the presence of a signal, with a variable for which it may wait. Where no
/// condition is known, no variable is forgotten.
fn turn_at(
    alloc: Global,
    asked: &Asked,
    store: &mut Store,
    known: &Known,
    guide: &Guide,
    hint: Option<u32>,
    signal: u32,
) -> Result<Turn, DdAnswer>
    requires asked { IsAskedIn store.old asked.now }
    requires known { AreKnown asked.now.system known.now }
    requires entered { (round : ℕ)
        × AreEntered asked.now.frame.kernel.now round known.now.conditions.items }
    requires guide { ForgetsAllBut asked.now.system asked.now.system.conditions guide.now.base.items }
    requires signal { IsSignal asked.now.frame.kernel.now signal }
    ensures store { IsStore store.new }
    ensures kept { Keeps store.old store.new }
    ensures awaits { IfOk result (λ turn. (v : ℕ) → turn.awaits ≡ Some v
        → IsApart store.new.nodes asked.now v signal) }
    ensures value { IfOk result (λ turn.
        IsOpenAnswer asked.now.frame.kernel.now (IsAmong known.now.conditions.items) signal turn.open) }
    ensures share { Share (3 + 2 * asked.now.system.variables) (variables_of asked.now.system)
        store.old store.new (refusal result) }
{
    if known.conditions.is_empty() {
        return first_turn(asked, store, known, signal);
    }
    turn_of(alloc, asked, store, known, guide, hint, signal)
}

/// What a round tells of the presence of a signal where no condition is known: it is open where some
/// reaction has the signal, and some has not. No node is made.
fn first_turn(asked: &Asked, store: &Store, _known: &Known, signal: u32) -> Result<Turn, DdAnswer>
    requires asked { IsAskedIn store.now asked.now }
    requires none { length _known.now.conditions.items ≡ 0 }
    requires signal { IsSignal asked.now.frame.kernel.now signal }
    ensures awaits { IfOk result (λ turn. (v : ℕ) → turn.awaits ≡ Some v
        → IsApart store.now.nodes asked.now v signal) }
    ensures value { IfOk result (λ turn.
        IsOpenAnswer asked.now.frame.kernel.now (IsAmong _known.now.conditions.items) signal turn.open) }
    ensures no_budget { (n : ℕ) → result ≢ Err (DdAnswer.Budget n) }
{
    let present = asked.presence(signal);
    let some = store.overlap(asked.solutions, present)?;
    let all = store.within(asked.solutions, present)?;
    Ok(Turn {
        open: is_some_alone(some, all),
        awaits: None,
    })
}

/// Whether something holds of some and not of all.
fn is_some_alone(some: bool, all: bool) -> bool
    ensures { result ≡ (some && not all) }
{
    some && !all
}

/// What a round tells of the presence of a signal, with a variable for which it may wait.
fn turn_of(
    alloc: Global,
    asked: &Asked,
    store: &mut Store,
    known: &Known,
    guide: &Guide,
    hint: Option<u32>,
    signal: u32,
) -> Result<Turn, DdAnswer>
    requires asked { IsAskedIn store.old asked.now }
    requires known { AreKnown asked.now.system known.now }
    requires entered { (round : ℕ)
        × AreEntered asked.now.frame.kernel.now round known.now.conditions.items }
    requires guide { ForgetsAllBut asked.now.system asked.now.system.conditions guide.now.base.items }
    requires signal { IsSignal asked.now.frame.kernel.now signal }
    ensures store { IsStore store.new }
    ensures kept { Keeps store.old store.new }
    ensures awaits { IfOk result (λ turn. (v : ℕ) → turn.awaits ≡ Some v
        → IsApart store.new.nodes asked.now v signal) }
    ensures value { IfOk result (λ turn.
        IsOpenAnswer asked.now.frame.kernel.now (IsAmong known.now.conditions.items) signal turn.open) }
    ensures share { Share (3 + 2 * asked.now.system.variables) (variables_of asked.now.system)
        store.old store.new (refusal result) }
{
    let rest = rest_of(asked, store, signal)?;
    if is_awaited(alloc, asked, store, known, guide, rest, hint, signal)? {
        return Ok(Turn {
            open: true,
            awaits: hint,
        });
    }
    let open = is_open(asked, store, known, rest, signal)?;
    Ok(Turn { open, awaits: None })
}

/// The solutions without a signal.
fn rest_of(asked: &Asked, store: &mut Store, signal: u32) -> Result<Ref, DdAnswer>
    requires asked { IsAskedIn store.old asked.now }
    requires signal { IsSignal asked.now.frame.kernel.now signal }
    ensures store { IsStore store.new }
    ensures kept { Keeps store.old store.new }
    ensures value { IfOk result (IsRest store.new.nodes asked.now signal) }
    ensures share { Share 1 (variables_of asked.now.system) store.old store.new (refusal result) }
{
    let never = store.constant(false);
    store.ite(asked.presence(signal), never, asked.solutions)
}

/// Whether the presence of a signal waits for the truth of a variable that is not known. The solutions
/// without the signal are given.
fn is_awaited(
    alloc: Global,
    asked: &Asked,
    store: &mut Store,
    known: &Known,
    guide: &Guide,
    rest: Ref,
    hint: Option<u32>,
    signal: u32,
) -> Result<bool, DdAnswer>
    requires asked { IsAskedIn store.old asked.now }
    requires guide { ForgetsAllBut asked.now.system asked.now.system.conditions guide.now.base.items }
    requires rest { IsRest store.old.nodes asked.now signal rest }
    requires signal { IsSignal asked.now.frame.kernel.now signal }
    ensures store { IsStore store.new }
    ensures kept { Keeps store.old store.new }
    ensures value { IfOk result (λ awaits. IsTrue awaits → (v : ℕ) × (hint ≡ Some v)
        × (truth_of known.now.forgotten.items v ≡ true) × IsApart store.new.nodes asked.now v signal) }
    ensures share { Share (asked.now.system.variables + 1) (variables_of asked.now.system)
        store.old store.new (refusal result) }
{
    let Some(v) = hint else {
        return Ok(false);
    };
    if !may_wait(known, guide, v) {
        return Ok(false);
    }
    is_apart(alloc, asked, store, guide, rest, v, signal)
}

/// Whether a variable is not known, and one of those that are forgotten or not.
fn may_wait(known: &Known, guide: &Guide, v: u32) -> bool
    ensures { IsTrue result → (truth_of known.now.forgotten.items v ≡ true) × (v < length guide.now.base.items) }
{
    is_forgotten(known.forgotten.as_slice(), v) && (v as usize) < guide.base.len()
}

/// Whether two solutions agree on all proposals but this variable, of which one has the signal. The
/// solutions without the signal are given.
fn is_apart(
    alloc: Global,
    asked: &Asked,
    store: &mut Store,
    guide: &Guide,
    rest: Ref,
    v: u32,
    signal: u32,
) -> Result<bool, DdAnswer>
    requires asked { IsAskedIn store.old asked.now }
    requires guide { ForgetsAllBut asked.now.system asked.now.system.conditions guide.now.base.items }
    requires rest { IsRest store.old.nodes asked.now signal rest }
    requires variable { v < length guide.now.base.items }
    requires signal { IsSignal asked.now.frame.kernel.now signal }
    ensures store { IsStore store.new }
    ensures kept { Keeps store.old store.new }
    ensures value { IfOk result (λ apart. IsTrue apart → IsApart store.new.nodes asked.now v signal) }
    ensures share { Share (asked.now.system.variables + 1) (variables_of asked.now.system)
        store.old store.new (refusal result) }
{
    let tried = forgetting(alloc, guide.base.as_slice(), v)?;
    let tried = tried.as_slice();
    let with = asked.where_present(store, signal, tried)?;
    store.overlap(with, rest)
}

/// Variables that are forgotten, and this one.
fn forgetting(alloc: Global, forgotten: &[bool], v: u32) -> Result<Vec<bool>, AllocError>
    requires { v < length forgotten.now }
    ensures { IfOk result (λ more. (u : ℕ) → u ≢ v → truth_of more.items u ≡ truth_of forgotten.now u) }
{
    let mut more = Vec::from_slice(alloc, forgotten)?;
    more[v as usize] = true;
    Ok(more)
}

/// Whether known conditions leave the presence of a signal open: two reactions agree on them, of
/// which one has the signal. The solutions without it are given.
fn is_open(
    asked: &Asked,
    store: &mut Store,
    known: &Known,
    rest: Ref,
    signal: u32,
) -> Result<bool, DdAnswer>
    requires asked { IsAskedIn store.old asked.now }
    requires known { AreKnown asked.now.system known.now }
    requires entered { (round : ℕ)
        × AreEntered asked.now.frame.kernel.now round known.now.conditions.items }
    requires rest { IsRest store.old.nodes asked.now signal rest }
    requires signal { IsSignal asked.now.frame.kernel.now signal }
    ensures store { IsStore store.new }
    ensures kept { Keeps store.old store.new }
    ensures value { IfOk result
        (IsOpenAnswer asked.now.frame.kernel.now (IsAmong known.now.conditions.items) signal) }
    ensures share { Share (asked.now.system.variables + 1) (variables_of asked.now.system)
        store.old store.new (refusal result) }
{
    let forgotten = known.forgotten.as_slice();
    let with = asked.where_present(store, signal, forgotten)?;
    store.overlap(with, rest)
}
