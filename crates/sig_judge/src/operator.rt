//! What operators make of their operands at an instant.

ghost use Rattle.std.specs.Prelude.{◌≡◌};
ghost use Rattle.sig_judge.specs.Prelude.{true, option_map, is_function, Changes, Combines, Constant, Signal};
ghost use Rattle.sig_judge.specs.inner.Decides.{DecidesSeen, operand_of};
ghost use Rattle.sig_judge.specs.Rows.{seen_of};
ghost use Rattle.sig_judge.specs.declared.trace.Seen.TheVariants.{Value};

use crate::function::{function_of_two, truth};
use crate::presence::{both_of, clock_of, merged, sampled, without};
use crate::trace::Seen;
use sig_tree::{BinOp, UnOp};

/// What an operand is at an instant: what a signal is, or a constant.
#[derive(Clone, Copy, Debug, PartialEq, Eq)]
pub enum Found {
    Signal(Seen),
    Constant(i64),
}

/// What an operator makes of its operand, if anything.
pub fn change(op: UnOp, x: Found) -> Option<Seen>
    ensures { DecidesSeen (Changes op (operand_of x)) result }
{
    match x {
        Found::Signal(x) => change_signal(op, x),
        Found::Constant(_) => None,
    }
}

fn change_signal(op: UnOp, x: Seen) -> Option<Seen>
    ensures { DecidesSeen (Changes op (Signal (seen_of x))) result }
{
    match op {
        UnOp::When => Some(sampled(Seen::Value(1), x)),
        UnOp::Clock => Some(clock_of(x)),
        UnOp::Not => Some(negation(x)),
        UnOp::Neg => negative(x),
    }
}

fn negation(x: Seen) -> Seen
    ensures { Changes UnOp.Not (Signal (seen_of x)) (seen_of result) }
{
    match x {
        Seen::Absent => Seen::Absent,
        Seen::Value(value) => Seen::Value(truth(value != 1)),
    }
}

fn negative(x: Seen) -> Option<Seen>
    ensures { DecidesSeen (Changes UnOp.Neg (Signal (seen_of x))) result }
{
    match x {
        Seen::Absent => Some(Seen::Absent),
        Seen::Value(value) => present(value.checked_neg()),
    }
}

/// What an operator makes of its operands, if anything.
pub fn combine(op: BinOp, x: Found, y: Found) -> Option<Seen>
    ensures { DecidesSeen (Combines op (operand_of x) (operand_of y)) result }
{
    match x {
        Found::Signal(x) => match y {
            Found::Signal(y) => combine_signals(op, x, y),
            Found::Constant(d) => apply_before(op, x, d),
        },
        Found::Constant(c) => match y {
            Found::Signal(y) => combine_constant(op, c, y),
            Found::Constant(_) => None,
        },
    }
}

fn combine_signals(op: BinOp, x: Seen, y: Seen) -> Option<Seen>
    ensures { DecidesSeen (Combines op (Signal (seen_of x)) (Signal (seen_of y))) result }
{
    match op {
        BinOp::Default => Some(merged(x, y)),
        BinOp::When => Some(sampled(x, y)),
        BinOp::Plus => Some(merged(clock_of(x), clock_of(y))),
        BinOp::Meet => Some(both_of(x, y)),
        BinOp::Less => Some(without(x, y)),
        _ => apply(op, x, y),
    }
}

/// A function of two signals.
fn apply(op: BinOp, x: Seen, y: Seen) -> Option<Seen>
    requires { is_function op ≡ true }
    ensures { DecidesSeen (Combines op (Signal (seen_of x)) (Signal (seen_of y))) result }
{
    match (x, y) {
        (Seen::Absent, Seen::Absent) => Some(Seen::Absent),
        (Seen::Value(x), Seen::Value(y)) => present(function_of_two(op, x, y)),
        _ => None,
    }
}

/// A function of a signal and a constant.
fn apply_before(op: BinOp, x: Seen, d: i64) -> Option<Seen>
    ensures { DecidesSeen (Combines op (Signal (seen_of x)) (Constant d)) result }
{
    if !is_function(op) {
        return None;
    }
    match x {
        Seen::Absent => Some(Seen::Absent),
        Seen::Value(x) => present(function_of_two(op, x, d)),
    }
}

/// A function of a constant and a signal, or a constant at the instants at which a signal is true.
fn combine_constant(op: BinOp, c: i64, y: Seen) -> Option<Seen>
    ensures { DecidesSeen (Combines op (Constant c) (Signal (seen_of y))) result }
{
    if op == BinOp::When {
        return Some(sampled(Seen::Value(c), y));
    }
    if !is_function(op) {
        return None;
    }
    match y {
        Seen::Absent => Some(Seen::Absent),
        Seen::Value(y) => present(function_of_two(op, c, y)),
    }
}

/// Whether an operator is a function of two operands.
fn is_function(op: BinOp) -> bool
    ensures { result ≡ is_function op }
{
    !matches!(
        op,
        BinOp::Default | BinOp::When | BinOp::Plus | BinOp::Meet | BinOp::Less
    )
}

/// A signal that is present with a value, if there is one.
fn present(value: Option<i64>) -> Option<Seen>
    ensures { result ≡ option_map Value value }
{
    match value {
        Some(value) => Some(Seen::Value(value)),
        None => None,
    }
}
