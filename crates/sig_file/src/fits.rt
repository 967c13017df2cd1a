//! What kinds of values fit.

ghost use Rattle.std.specs.Prelude.{◌≡◌};
ghost use Rattle.sig_file.specs.Prelude.{kind_fits, value_is};
ghost use Rattle.sig_file.specs.Images.{accepts, accepts_value, are_operands, is_same, kind_at, memory_at, operand_count, operand_is, operands_begin, sort_of};

use crate::images::{ImageMemory, ImageSignal};
use sig_base::Kind;
use sig_kernel::{FunOp, Operand, Sort};

/// The kind of the signal of a number.
pub fn kind_at(signals: &[ImageSignal], x: u32) -> Option<Kind>
    ensures { result ≡ kind_at signals.now x }
{
    match signals.get(x as usize) {
        Some(signal) => Some(signal.kind),
        None => None,
    }
}

/// The kind of the memory of a number.
pub fn memory_at(memories: &[ImageMemory], m: u32) -> Option<Kind>
    ensures { result ≡ memory_at memories.now m }
{
    match memories.get(m as usize) {
        Some(memory) => Some(memory.kind),
        None => None,
    }
}

/// Whether a number is a value of the kind.
pub fn is_value(kind: Kind, value: i64) -> bool
    ensures { result ≡ value_is kind value }
{
    match kind {
        Kind::Integer => true,
        Kind::Boolean => value == 0 || value == 1,
        Kind::Event => value == 1,
    }
}

/// What a signal of the kind may be given.
fn sort_of(kind: Kind) -> Sort
    ensures { result ≡ sort_of kind }
{
    match kind {
        Kind::Integer => Sort::Integer,
        Kind::Boolean => Sort::Truth,
        Kind::Event => Sort::Event,
    }
}

/// Whether a signal or a memory of this kind may have this value.
pub fn accepts_value(target: Option<Kind>, value: i64) -> bool
    ensures { result ≡ accepts_value target value }
{
    match target {
        Some(kind) => is_value(kind, value),
        None => false,
    }
}

/// Whether both are there, and of one kind.
pub fn is_same(target: Option<Kind>, other: Option<Kind>) -> bool
    ensures { result ≡ is_same target other }
{
    match (target, other) {
        (Some(Kind::Integer), Some(Kind::Integer)) => true,
        (Some(Kind::Boolean), Some(Kind::Boolean)) => true,
        (Some(Kind::Event), Some(Kind::Event)) => true,
        _ => false,
    }
}

/// Whether a signal of this kind is of the sort.
fn is_of(sort: Sort, kind: Option<Kind>) -> bool
    ensures { result ≡ kind_fits sort kind }
{
    match (sort, kind) {
        (_, None) => false,
        (Sort::Any, Some(_)) => true,
        (Sort::Integer, Some(kind)) => matches!(kind, Kind::Integer),
        (Sort::Truth, Some(kind)) => matches!(kind, Kind::Boolean | Kind::Event),
        (Sort::Event, Some(kind)) => matches!(kind, Kind::Event),
    }
}

/// Whether a signal or a memory of the one kind may be given a value of the other.
pub fn accepts(target: Option<Kind>, source: Option<Kind>) -> bool
    ensures { result ≡ accepts target source }
{
    match target {
        Some(kind) => is_of(sort_of(kind), source),
        None => false,
    }
}

/// How many operands a function has.
pub fn operand_count(op: FunOp) -> usize
    ensures { result ≡ operand_count op }
{
    match op {
        FunOp::Id | FunOp::Neg | FunOp::Not => 1,
        _ => 2,
    }
}

/// Whether an operand is of the sort.
fn operand_is(signals: &[ImageSignal], operand: Operand, sort: Sort) -> bool
    ensures { result ≡ operand_is signals.now operand sort }
{
    match operand {
        Operand::Sig(x) => is_of(sort, kind_at(signals, x.0)),
        Operand::Const(constant) => match sort {
            Sort::Integer | Sort::Any => true,
            Sort::Truth => constant == 0 || constant == 1,
            Sort::Event => constant == 1,
        },
    }
}

/// Whether operands are of the first of these sorts.
fn begin(signals: &[ImageSignal], operands: &[Operand], sorts: &[Sort]) -> bool
    ensures { result ≡ operands_begin signals.now operands.now sorts.now }
{
    match operands.split_first() {
        None => true,
        Some((operand, operands)) => match sorts.split_first() {
            None => false,
            Some((sort, sorts)) => {
                operand_is(signals, *operand, *sort) && begin(signals, operands, sorts)
            }
        },
    }
}

/// Whether these are the first operands of a function that defines a signal of this kind.
pub fn are_operands(
    signals: &[ImageSignal],
    op: FunOp,
    kind: Option<Kind>,
    operands: &[Operand],
) -> bool
    ensures { result ≡ are_operands signals.now op kind operands.now }
{
    const INTEGERS: [Sort; 2] = [Sort::Integer, Sort::Integer];
    const TRUTHS: [Sort; 2] = [Sort::Truth, Sort::Truth];
    let Some(kind) = kind else {
        return false;
    };
    match (op, kind) {
        (FunOp::Id, _) => begin(signals, operands, &[sort_of(kind)]),
        (FunOp::Neg, Kind::Integer) => begin(signals, operands, &[Sort::Integer]),
        (FunOp::Not, Kind::Boolean) => begin(signals, operands, &[Sort::Truth]),
        (FunOp::And | FunOp::Or | FunOp::Xor, Kind::Boolean) => begin(signals, operands, &TRUTHS),
        (FunOp::Eq | FunOp::Ne, Kind::Boolean) => {
            begin(signals, operands, &INTEGERS) || begin(signals, operands, &TRUTHS)
        }
        (FunOp::Lt | FunOp::Le | FunOp::Gt | FunOp::Ge, Kind::Boolean) => {
            begin(signals, operands, &INTEGERS)
        }
        (FunOp::Add | FunOp::Sub | FunOp::Mul | FunOp::Div | FunOp::Mod, Kind::Integer) => {
            begin(signals, operands, &INTEGERS)
        }
        _ => false,
    }
}
