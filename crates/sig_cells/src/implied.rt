//! What one guard tells of another.

ghost use Rattle.std.specs.Prelude.{◌≡◌, ◌<◌};
ghost use Rattle.sig_cells.specs.Prelude.{true, List, IfSome, Bool, Holds};
ghost use Rattle.sig_cells.specs.inner.Implied.{HasTruth, IsFurther, IsGuardOn, IsNarrowed, IsPairOn, IsTold, LeadsOn};

use crate::stretches::Known;
use sig_dd::{Node, Ref, Store};

/// How many nodes of two guards are looked at.
const MOST: usize = 64;

/// A guard of which is asked whether it has its truth wherever another one has its own.
#[derive(Clone, Copy)]
pub(crate) struct Pair {
    pub(crate) known: Known,
    pub(crate) told: Known,
}

/// The truth of a variable.
#[derive(Clone, Copy)]
pub(crate) struct Way {
    pub(crate) variable: u32,
    pub(crate) truth: bool,
}

/// What is left of a guard with its truth and of another guard.
#[derive(Clone, Copy)]
pub(crate) struct Narrowed {
    pub(crate) known: Known,
    pub(crate) guard: Ref,
}

/// Whether a guard has its truth wherever another one has its own, as far as one way down their diagrams shows.
pub(crate) fn is_told(store: &Store, known: Known, told: Known) -> bool
    requires known { Holds store.now.nodes known.guard }
    requires told { Holds store.now.nodes told.guard }
    ensures { result ≡ true → IsTold store.now.nodes known told }
{
    let mut pair = Pair { known, told };
    for _ in 0..MOST {
        if is_settled(store, pair) {
            return true;
        }
        match further(store, pair) {
            Some(next) => pair = next,
            None => return false,
        }
    }
    false
}

/// Whether a pair is told at once: the first guard never has its truth, the second always has its own, or they are the same.
fn is_settled(store: &Store, pair: Pair) -> bool
    requires known { Holds store.now.nodes pair.known.guard }
    requires told { Holds store.now.nodes pair.told.guard }
    ensures { result ≡ true → IsTold store.now.nodes pair.known pair.told }
{
    if is_constant(store, pair.known.guard, !pair.known.truth) {
        true
    } else if is_constant(store, pair.told.guard, pair.told.truth) {
        true
    } else {
        are_same(pair)
    }
}

/// Whether both guards of a pair are the same, with one truth.
fn are_same(pair: Pair) -> bool
    ensures { result ≡ true → pair.known ≡ pair.told }
{
    pair.known.guard == pair.told.guard && pair.known.truth == pair.told.truth
}

/// Whether a guard always has a truth.
fn is_constant(store: &Store, guard: Ref, truth: bool) -> bool
    ensures { result ≡ true → (truths : List Bool) → HasTruth store.now.nodes (record { guard = guard; truth = truth }) truths }
{
    guard == store.constant(truth)
}

/// The pair on one side of the earlier variable, where it is told on the other side.
fn further(store: &Store, pair: Pair) -> Option<Pair>
    requires known { Holds store.now.nodes pair.known.guard }
    requires told { Holds store.now.nodes pair.told.guard }
    ensures { IfSome result (IsFurther store.now.nodes pair) }
{
    match earlier_variable(store.node(pair.known.guard), store.node(pair.told.guard)) {
        Some(variable) => further_by(store, pair, variable),
        None => None,
    }
}

/// The pair on one side of a variable, where it is told on the other side.
fn further_by(store: &Store, pair: Pair, variable: u32) -> Option<Pair>
    requires known { Holds store.now.nodes pair.known.guard }
    requires told { Holds store.now.nodes pair.told.guard }
    ensures { IfSome result (IsFurther store.now.nodes pair) }
{
    let low = pair_on(store, pair, way_of(variable, false));
    let high = pair_on(store, pair, way_of(variable, true));
    if is_settled(store, low) {
        Some(high)
    } else if is_settled(store, high) {
        Some(low)
    } else {
        None
    }
}

/// A variable with its truth.
fn way_of(variable: u32, truth: bool) -> Way
    ensures variable { result.variable ≡ variable }
    ensures truth { result.truth ≡ truth }
{
    Way { variable, truth }
}

/// The earlier one of the variables of two nodes.
fn earlier_variable(first: Option<Node>, second: Option<Node>) -> Option<u32> {
    match (first, second) {
        (Some(a), Some(b)) => Some(if a.variable < b.variable {
            a.variable
        } else {
            b.variable
        }),
        (Some(a), None) => Some(a.variable),
        (None, Some(b)) => Some(b.variable),
        (None, None) => None,
    }
}

/// A pair where a variable has its truth.
fn pair_on(store: &Store, pair: Pair, way: Way) -> Pair
    requires known { Holds store.now.nodes pair.known.guard }
    requires told { Holds store.now.nodes pair.told.guard }
    ensures { IsPairOn store.now.nodes pair way result }
{
    let known = guard_on(store, pair.known.guard, way);
    let told = guard_on(store, pair.told.guard, way);
    Pair {
        known: Known {
            guard: known,
            truth: pair.known.truth,
        },
        told: Known {
            guard: told,
            truth: pair.told.truth,
        },
    }
}

/// What is left of a guard where a variable has its truth.
fn guard_on(store: &Store, guard: Ref, way: Way) -> Ref
    requires { Holds store.now.nodes guard }
    ensures { IsGuardOn store.now.nodes guard way result }
{
    match store.node(guard) {
        Some(node) => {
            if node.variable == way.variable {
                if way.truth { node.high } else { node.low }
            } else {
                guard
            }
        }
        None => guard,
    }
}

/// What is left of two guards, where the variables of the first one have what its truth needs, down to where it needs
/// nothing, or the second one asks an earlier variable.
pub(crate) fn narrow(store: &Store, known: Known, guard: Ref) -> Narrowed
    requires known { Holds store.now.nodes known.guard }
    requires guard { Holds store.now.nodes guard }
    ensures { IsNarrowed store.now.nodes known guard result }
{
    let mut left = Narrowed { known, guard };
    for _ in 0..MOST {
        match needed(store, left.known) {
            Some(way) => {
                if asks_before(store, left.guard, way.variable) {
                    break;
                }
                left = narrowed_by(store, left, way);
            }
            None => break,
        }
    }
    left
}

/// What is left of two guards where a variable has its truth.
fn narrowed_by(store: &Store, left: Narrowed, way: Way) -> Narrowed
    requires known { Holds store.now.nodes left.known.guard }
    requires guard { Holds store.now.nodes left.guard }
    requires needed { (truths : List Bool) → HasTruth store.now.nodes left.known truths → LeadsOn way truths }
    ensures { IsNarrowed store.now.nodes left.known left.guard result }
{
    let known = guard_on(store, left.known.guard, way);
    let guard = guard_on(store, left.guard, way);
    Narrowed {
        known: Known {
            guard: known,
            truth: left.known.truth,
        },
        guard,
    }
}

/// The truth that the variable of a guard has wherever the guard has its own.
fn needed(store: &Store, known: Known) -> Option<Way>
    requires { Holds store.now.nodes known.guard }
    ensures { IfSome result (λ way. (truths : List Bool) → HasTruth store.now.nodes known truths → LeadsOn way truths) }
{
    match store.node(known.guard) {
        Some(node) => {
            if is_constant(store, node.low, !known.truth) {
                Some(way_of(node.variable, true))
            } else if is_constant(store, node.high, !known.truth) {
                Some(way_of(node.variable, false))
            } else {
                None
            }
        }
        None => None,
    }
}

/// Whether a guard asks an earlier variable, or none.
fn asks_before(store: &Store, guard: Ref, variable: u32) -> bool
    requires { Holds store.now.nodes guard }
{
    match store.node(guard) {
        Some(node) => node.variable < variable,
        None => true,
    }
}
