//! What the operands of an equation have to be.

ghost use Rattle.std.specs.Prelude.{◌≡◌, [], ◌∷◌};
ghost use Rattle.sig_kernel.specs.Table.{constant_is, defines_well, form_fits, function_rows, handed_on, handed_on_where, keeps_to_one, kept, kind_at, kind_is, merged, operand_is, operands_are, presence};

use crate::equation::{Form, FunOp, Operand};
use sig_base::{Kind, SigId, Signal};

/// What the table of kinds asks of an operand: to be an integer, to be a truth (a boolean or an
/// event), to be an event, or nothing.
#[derive(Clone, Copy, Debug, PartialEq, Eq)]
pub enum Sort {
    Integer,
    Truth,
    Event,
    Any,
}

impl Sort {
    /// Whether a signal of this kind is of the sort.
    fn has_kind(self, kind: Kind) -> bool
        ensures { result ≡ kind_is self kind }
    {
        match self {
            Sort::Integer => matches!(kind, Kind::Integer),
            Sort::Truth => matches!(kind, Kind::Boolean | Kind::Event),
            Sort::Event => matches!(kind, Kind::Event),
            Sort::Any => true,
        }
    }

    /// Whether a constant is of the sort.
    fn has_constant(self, constant: i64) -> bool
        ensures { result ≡ constant_is self constant }
    {
        match self {
            Sort::Integer => true,
            Sort::Truth => constant == 0 || constant == 1,
            Sort::Event => constant == 1,
            Sort::Any => true,
        }
    }
}

/// Whether an operand is of a sort.
fn is_of(signals: &[Signal], operand: Operand, sort: Sort) -> bool
    ensures { result ≡ operand_is signals.now operand sort }
{
    match operand {
        Operand::Sig(x) => match signals.get(x.0 as usize) {
            Some(signal) => sort.has_kind(signal.kind),
            None => false,
        },
        Operand::Const(constant) => sort.has_constant(constant),
    }
}

/// Whether there is one operand, of this sort.
fn is_one(signals: &[Signal], operands: &[Operand], sort: Sort) -> bool
    ensures { result ≡ operands_are signals.now operands.now (sort ∷ []) }
{
    match operands {
        [operand] => is_of(signals, *operand, sort),
        _ => false,
    }
}

/// Whether there are two operands, of these sorts.
fn are_two(signals: &[Signal], operands: &[Operand], first: Sort, second: Sort) -> bool
    ensures { result ≡ operands_are signals.now operands.now (first ∷ second ∷ []) }
{
    match operands {
        [a, b] => is_of(signals, *a, first) && is_of(signals, *b, second),
        _ => false,
    }
}

/// Whether a signal of this kind may be defined by a function of these operands.
fn function_fits(signals: &[Signal], kind: Kind, op: FunOp, operands: &[Operand]) -> bool
    ensures { result ≡ keeps_to_one signals.now kind operands.now (function_rows op) }
{
    match (op, kind) {
        (FunOp::Id, _) => is_handed_on(signals, kind, operands),
        (FunOp::Neg, Kind::Integer) => is_one(signals, operands, Sort::Integer),
        (FunOp::Not, Kind::Boolean) => is_one(signals, operands, Sort::Truth),
        (FunOp::And | FunOp::Or | FunOp::Xor, Kind::Boolean) => {
            are_two(signals, operands, Sort::Truth, Sort::Truth)
        }
        (FunOp::Eq | FunOp::Ne, Kind::Boolean) => {
            are_two(signals, operands, Sort::Integer, Sort::Integer)
                || are_two(signals, operands, Sort::Truth, Sort::Truth)
        }
        (FunOp::Lt | FunOp::Le | FunOp::Gt | FunOp::Ge, Kind::Boolean) => {
            are_two(signals, operands, Sort::Integer, Sort::Integer)
        }
        (FunOp::Add | FunOp::Sub | FunOp::Mul | FunOp::Div | FunOp::Mod, Kind::Integer) => {
            are_two(signals, operands, Sort::Integer, Sort::Integer)
        }
        _ => false,
    }
}

/// Whether a signal of this kind may be one operand.
fn is_handed_on(signals: &[Signal], kind: Kind, operands: &[Operand]) -> bool
    ensures { result ≡ keeps_to_one signals.now kind operands.now handed_on }
{
    match kind {
        Kind::Integer => is_one(signals, operands, Sort::Integer),
        Kind::Boolean => is_one(signals, operands, Sort::Truth),
        Kind::Event => is_one(signals, operands, Sort::Event),
    }
}

/// Whether a signal of this kind may be the first operand, where the second is true.
fn is_handed_on_where(signals: &[Signal], kind: Kind, operands: &[Operand]) -> bool
    ensures { result ≡ keeps_to_one signals.now kind operands.now handed_on_where }
{
    match kind {
        Kind::Integer => are_two(signals, operands, Sort::Integer, Sort::Truth),
        Kind::Boolean => are_two(signals, operands, Sort::Truth, Sort::Truth),
        Kind::Event => are_two(signals, operands, Sort::Event, Sort::Truth),
    }
}

/// Whether a signal of this kind may be one of two operands.
fn is_merged(signals: &[Signal], kind: Kind, operands: &[Operand]) -> bool
    ensures { result ≡ keeps_to_one signals.now kind operands.now merged }
{
    match kind {
        Kind::Integer => are_two(signals, operands, Sort::Integer, Sort::Integer),
        Kind::Boolean => are_two(signals, operands, Sort::Truth, Sort::Truth),
        Kind::Event => are_two(signals, operands, Sort::Event, Sort::Event),
    }
}

/// Whether a signal of this kind may be what an operand was before.
fn is_kept(signals: &[Signal], kind: Kind, operands: &[Operand]) -> bool
    ensures { result ≡ keeps_to_one signals.now kind operands.now kept }
{
    match kind {
        Kind::Integer => are_two(signals, operands, Sort::Integer, Sort::Integer),
        Kind::Boolean => are_two(signals, operands, Sort::Truth, Sort::Truth),
        Kind::Event => false,
    }
}

/// Whether a signal of this kind may be true where an operand is present.
fn is_present(signals: &[Signal], kind: Kind, operands: &[Operand]) -> bool
    ensures { result ≡ keeps_to_one signals.now kind operands.now presence }
{
    match kind {
        Kind::Integer => false,
        Kind::Boolean | Kind::Event => is_one(signals, operands, Sort::Any),
    }
}

/// The kind of a signal of this number.
fn kind_of(signals: &[Signal], signal: SigId) -> Option<Kind>
    ensures { result ≡ kind_at signals.now signal }
{
    match signals.get(signal.0 as usize) {
        Some(signal) => Some(signal.kind),
        None => None,
    }
}

/// Whether an equation of this form keeps to the table of kinds.
pub(crate) fn form_fits(signals: &[Signal], form: &Form) -> bool
    ensures { result ≡ form_fits signals.now form.now }
{
    match form {
        Form::Sync(_, _) => true,
        Form::Fun(y, _, _)
        | Form::Delay(y, _, _)
        | Form::When(y, _, _)
        | Form::WhenConst(y, _, _)
        | Form::Default(y, _, _)
        | Form::Event(y, _) => match kind_of(signals, *y) {
            Some(kind) => defines_well(signals, kind, form),
            None => false,
        },
    }
}

/// Whether a signal of this kind may be defined by an equation of this form.
fn defines_well(signals: &[Signal], kind: Kind, form: &Form) -> bool
    ensures { result ≡ defines_well signals.now kind form.now }
{
    use Operand::{Const, Sig};
    match form {
        Form::Fun(_, op, operands) => function_fits(signals, kind, *op, operands.as_slice()),
        Form::Delay(_, x, initial) => is_kept(signals, kind, &[Sig(*x), Const(*initial)]),
        Form::When(_, x, b) => is_handed_on_where(signals, kind, &[Sig(*x), Sig(*b)]),
        Form::WhenConst(_, constant, b) => {
            is_handed_on_where(signals, kind, &[Const(*constant), Sig(*b)])
        }
        Form::Default(_, u, v) => is_merged(signals, kind, &[Sig(*u), Sig(*v)]),
        Form::Sync(_, _) => false,
        Form::Event(_, x) => is_present(signals, kind, &[Sig(*x)]),
    }
}
