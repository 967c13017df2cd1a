//! How the guards of runs are told.

ghost use Rattle.std.specs.Prelude.{◌≡◌, ◌<◌, if◌then◌else◌};
ghost use Rattle.sig_cells.specs.Prelude.{ℕ, true, not, IfSome, Some, length, Depends, Holds, IsRefOf, Registers, node_of, test};
ghost use Rattle.sig_cells.specs.Guards.{AreBelow, AsksAmong, scope_of};
ghost use Rattle.sig_cells.specs.inner.Tests.{AsksWithin, IsJoined, IsTest, IsTestWith, both_hold, literal_holds, told_by};
ghost use Rattle.sig_cells.specs.declared.stretches.Known.{Known};

use crate::implied::{is_told, narrow};
use crate::stretches::Known;
use crate::test::{Literal, Test, Three};
use sig_base::SigId;
use sig_dd::{Node, Ref, Store};

/// A guard by a literal: where it holds, the guard is what is left of it, and elsewhere it has one truth.
#[derive(Clone, Copy)]
pub(crate) struct Joined {
    pub(crate) literal: Literal,
    pub(crate) rest: Ref,
    pub(crate) otherwise: bool,
}

/// How a guard is told where the truth of another one is known.
pub(crate) fn test_where(
    store: &Store,
    conditions: &[SigId],
    signals: usize,
    known: Known,
    guard: Ref,
) -> Test
    requires known { Holds store.now.nodes known.guard }
    requires held { Holds store.now.nodes guard }
    requires told { AsksAmong store.now.nodes conditions.now guard }
    requires below { AreBelow signals conditions.now }
    ensures { IsTest (scope_of store.now.nodes conditions.now signals) known guard result }
{
    match test_of_two_where(store, conditions, signals, known, guard) {
        Test::Walk => test_of_three_where(store, conditions, signals, known, guard),
        told => told,
    }
}

/// How a guard is told that asks three literals where another one has its truth.
fn test_of_three_where(
    store: &Store,
    conditions: &[SigId],
    signals: usize,
    known: Known,
    guard: Ref,
) -> Test
    requires known { Holds store.now.nodes known.guard }
    requires held { Holds store.now.nodes guard }
    requires told { AsksAmong store.now.nodes conditions.now guard }
    requires below { AreBelow signals conditions.now }
    ensures { IsTest (scope_of store.now.nodes conditions.now signals) known guard result }
{
    let left = narrow(store, known, guard);
    match joined_of(store, conditions, signals, left.guard) {
        Some(joined) => {
            let rest = test_of_two_where(store, conditions, signals, left.known, joined.rest);
            test_with_two(joined, rest)
        }
        None => Test::Walk,
    }
}

/// How a guard is told that asks two literals at most where another one has its truth.
fn test_of_two_where(
    store: &Store,
    conditions: &[SigId],
    signals: usize,
    known: Known,
    guard: Ref,
) -> Test
    requires known { Holds store.now.nodes known.guard }
    requires held { Holds store.now.nodes guard }
    requires told { AsksAmong store.now.nodes conditions.now guard }
    requires below { AreBelow signals conditions.now }
    ensures { IsTest (scope_of store.now.nodes conditions.now signals) known guard result }
{
    match short_test_where(store, conditions, signals, known, guard) {
        Test::Walk => long_test_where(store, conditions, signals, known, guard),
        told => told,
    }
}

/// How a guard is told of which what is known leaves one node at most.
fn short_test_where(
    store: &Store,
    conditions: &[SigId],
    signals: usize,
    known: Known,
    guard: Ref,
) -> Test
    requires known { Holds store.now.nodes known.guard }
    requires held { Holds store.now.nodes guard }
    requires told { AsksAmong store.now.nodes conditions.now guard }
    requires below { AreBelow signals conditions.now }
    ensures { IsTest (scope_of store.now.nodes conditions.now signals) known guard result }
{
    let holds = Known { guard, truth: true };
    if is_told(store, known, holds) {
        Test::Always
    } else {
        let left = narrow(store, known, guard);
        short_test_of(store, conditions, signals, left.guard)
    }
}

/// How a guard is told of which what is known leaves more than one node.
fn long_test_where(
    store: &Store,
    conditions: &[SigId],
    signals: usize,
    known: Known,
    guard: Ref,
) -> Test
    requires known { Holds store.now.nodes known.guard }
    requires held { Holds store.now.nodes guard }
    requires told { AsksAmong store.now.nodes conditions.now guard }
    requires below { AreBelow signals conditions.now }
    ensures { IsTest (scope_of store.now.nodes conditions.now signals) known guard result }
{
    let left = narrow(store, known, guard);
    match joined_of(store, conditions, signals, left.guard) {
        Some(joined) => {
            let rest = short_test_where(store, conditions, signals, left.known, joined.rest);
            test_with_one(joined, rest)
        }
        None => Test::Walk,
    }
}

/// A guard by the literal of its first node, where one of its children is a constant.
fn joined_of(store: &Store, conditions: &[SigId], signals: usize, guard: Ref) -> Option<Joined>
    requires held { Holds store.now.nodes guard }
    requires told { AsksAmong store.now.nodes conditions.now guard }
    requires below { AreBelow signals conditions.now }
    ensures { IfSome result (IsJoined (scope_of store.now.nodes conditions.now signals) guard) }
{
    let node = store.node(guard)?;
    let signal = conditions[node.variable as usize];
    if let Some(otherwise) = truth_of_constant(store, conditions, signals, node.low) {
        Some(Joined {
            literal: literal_of(signal, true),
            rest: node.high,
            otherwise,
        })
    } else if let Some(otherwise) = truth_of_constant(store, conditions, signals, node.high) {
        Some(Joined {
            literal: literal_of(signal, false),
            rest: node.low,
            otherwise,
        })
    } else {
        None
    }
}

/// A signal that is true, or one that is not.
fn literal_of(signal: SigId, positive: bool) -> Literal
    ensures { result ≡ record { signal = signal; positive = positive } }
{
    Literal { signal, positive }
}

/// The truth of a function, where it is a constant.
fn truth_of_constant(
    store: &Store,
    conditions: &[SigId],
    signals: usize,
    function: Ref,
) -> Option<bool>
    ensures { IfSome result (λ truth. IsRefOf store.now.nodes (λ _. truth) function) }
{
    if function == store.constant(true) {
        Some(true)
    } else if function == store.constant(false) {
        Some(false)
    } else {
        None
    }
}

/// How a guard is told of which the rest asks one literal at most.
fn test_with_one(joined: Joined, rest: Test) -> Test
    ensures { IsTestWith joined rest result }
{
    match rest {
        Test::Always => test_of_literal(joined.literal, joined.otherwise),
        Test::Is(signal) => {
            let second = literal_of(signal, true);
            test_of_literals(joined.literal, second, joined.otherwise)
        }
        Test::IsNot(signal) => {
            let second = literal_of(signal, false);
            test_of_literals(joined.literal, second, joined.otherwise)
        }
        _ => Test::Walk,
    }
}

/// How a guard is told of which the rest asks two literals.
fn test_with_two(joined: Joined, rest: Test) -> Test
    ensures { IsTestWith joined rest result }
{
    match rest {
        Test::Both(second, third) => test_of_three(joined, second, third, true),
        Test::NotBoth(second, third) => test_of_three(joined, second, third, false),
        _ => Test::Walk,
    }
}

/// How a guard is told of which the rest tells whether both of two literals hold, or whether not both do.
fn test_of_three(joined: Joined, second: Literal, third: Literal, both: bool) -> Test
    ensures asks { (count : ℕ) → joined.literal.signal.0 < count → second.signal.0 < count → third.signal.0 < count → AsksWithin count result }
    ensures tells { (registers : Registers) → told_by result registers ≡ Some (if literal_holds joined.literal registers then (if both then both_hold second third registers else not (both_hold second third registers)) else joined.otherwise) }
{
    Test::Three(Three {
        first: joined.literal,
        second,
        third,
        both,
        otherwise: joined.otherwise,
    })
}

/// How it is told what holds where a literal does, and has one truth elsewhere.
fn test_of_literal(literal: Literal, otherwise: bool) -> Test
    ensures asks { (count : ℕ) → literal.signal.0 < count → AsksWithin count result }
    ensures tells { (registers : Registers) → told_by result registers ≡ Some (if literal_holds literal registers then true else otherwise) }
{
    if otherwise {
        Test::Always
    } else if literal.positive {
        Test::Is(literal.signal)
    } else {
        Test::IsNot(literal.signal)
    }
}

/// How it is told what a second literal tells where a first one holds, and what has one truth elsewhere.
fn test_of_literals(first: Literal, second: Literal, otherwise: bool) -> Test
    ensures asks { (count : ℕ) → first.signal.0 < count → second.signal.0 < count → AsksWithin count result }
    ensures tells { (registers : Registers) → told_by result registers ≡ Some (if literal_holds first registers then literal_holds second registers else otherwise) }
{
    if otherwise {
        let turned = Literal {
            signal: second.signal,
            positive: !second.positive,
        };
        Test::NotBoth(first, turned)
    } else {
        Test::Both(first, second)
    }
}

/// How a guard of at most one node is told.
fn short_test_of(store: &Store, conditions: &[SigId], signals: usize, guard: Ref) -> Test
    requires held { Holds store.now.nodes guard }
    requires told { AsksAmong store.now.nodes conditions.now guard }
    requires below { AreBelow signals conditions.now }
    ensures { (known : Known) → IsTest (scope_of store.now.nodes conditions.now signals) known guard result }
{
    match store.node(guard) {
        Some(node) => test_of_node(store, conditions, signals, guard, node),
        None => {
            if guard == store.constant(true) {
                Test::Always
            } else {
                Test::Walk
            }
        }
    }
}

/// How a guard of this node is told.
fn test_of_node(
    store: &Store,
    conditions: &[SigId],
    signals: usize,
    _guard: Ref,
    node: Node,
) -> Test
    requires held { Holds store.now.nodes _guard }
    requires told { AsksAmong store.now.nodes conditions.now _guard }
    requires below { AreBelow signals conditions.now }
    requires node { Some node ≡ node_of store.now.nodes _guard }
    ensures { (known : Known) → IsTest (scope_of store.now.nodes conditions.now signals) known _guard result }
{
    let yes = store.constant(true);
    let no = store.constant(false);
    let plain = has_children(node, no, yes);
    let turned = has_children(node, yes, no);
    let condition = conditions[node.variable as usize];
    if plain {
        Test::Is(condition)
    } else if turned {
        Test::IsNot(condition)
    } else {
        Test::Walk
    }
}

/// Whether a node has these children.
fn has_children(node: Node, low: Ref, high: Ref) -> bool
    ensures { result ≡ true → (node.low ≡ low) × (node.high ≡ high) }
{
    node.low == low && node.high == high
}
