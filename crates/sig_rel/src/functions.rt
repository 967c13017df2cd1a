//! Functions of truths among the functions of a kernel.

ghost use Rattle.std.specs.Prelude.{◌≡◌, ◌∷◌, if◌then◌else◌};
ghost use Rattle.sig_rel.specs.Prelude.{[], Bool, List, None, Some, list_any, Signal, is_integer, Operand};
ghost use Rattle.sig_rel.specs.inner.TruthFunctions.{truth_given, truth_of_some};

use sig_base::{Kind, Signal};
use sig_kernel::{FunOp, Operand};

/// A function of truths, with its operands.
#[derive(Clone, Copy)]
pub(crate) enum TruthFunction {
    Same(Operand),
    Not(Operand),
    And(Operand, Operand),
    Or(Operand, Operand),
    Equal(Operand, Operand),
    Differ(Operand, Operand),
}

/// The function of truths that the function of these operands is, if it is one.
pub(crate) fn truth_function(
    signals: &[Signal],
    op: FunOp,
    operands: &[Operand],
) -> Option<TruthFunction>
    ensures truth { (truth : Operand → Bool) → truth_given signals.now op operands.now truth
        ≡ truth_of_some truth result }
{
    match operands {
        [a] => of_one(op, *a),
        [a, b] => of_two(signals, op, *a, *b),
        _ => None,
    }
}

/// The function of truths that the function of one operand is.
fn of_one(op: FunOp, a: Operand) -> Option<TruthFunction>
    ensures truth { (signals : List Signal) (truth : Operand → Bool) → truth_given signals op (a ∷ []) truth
        ≡ truth_of_some truth result }
{
    match op {
        FunOp::Id => Some(TruthFunction::Same(a)),
        FunOp::Not => Some(TruthFunction::Not(a)),
        _ => None,
    }
}

/// The function of truths that the function of two operands is. Integers may be compared too.
fn of_two(signals: &[Signal], op: FunOp, a: Operand, b: Operand) -> Option<TruthFunction>
    ensures truth { (truth : Operand → Bool) → truth_given signals.now op (a ∷ b ∷ []) truth
        ≡ truth_of_some truth result }
{
    match op {
        FunOp::And => Some(TruthFunction::And(a, b)),
        FunOp::Or => Some(TruthFunction::Or(a, b)),
        FunOp::Xor => Some(TruthFunction::Differ(a, b)),
        FunOp::Eq => unless_integers(signals, a, b, TruthFunction::Equal(a, b)),
        FunOp::Ne => unless_integers(signals, a, b, TruthFunction::Differ(a, b)),
        _ => None,
    }
}

/// The function, unless one of the two operands is an integer.
fn unless_integers(
    signals: &[Signal],
    a: Operand,
    b: Operand,
    function: TruthFunction,
) -> Option<TruthFunction>
    ensures { result
        ≡ (if list_any (is_integer signals.now) (a ∷ b ∷ []) then None else Some function) }
{
    if is_integer(signals, a) || is_integer(signals, b) {
        None
    } else {
        Some(function)
    }
}

/// Whether an operand is a signal of integers.
fn is_integer(signals: &[Signal], operand: Operand) -> bool
    ensures { result ≡ is_integer signals.now operand }
{
    match operand {
        Operand::Sig(x) => match signals.get(x.0 as usize) {
            Some(signal) => matches!(signal.kind, Kind::Integer),
            None => false,
        },
        Operand::Const(_) => false,
    }
}
