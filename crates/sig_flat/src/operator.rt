//! The operators that are one equation: their kinds and their forms.

ghost use Rattle.std.specs.Prelude.{◌≡◌, ◌≢◌, ◌∷◌};
ghost use Rattle.sig_flat.specs.Prelude.{[], None, Some, IfOk, Fun, binary_row, kind_of_result, merged, stored, unary_row};
ghost use Rattle.sig_flat.specs.KernelOf.{binary_form, sampled_form, unary_form};

use crate::term::signal_in;
use sig_base::{Kind, SigId};
use sig_kernel::{Form, FunOp, Operand, Operands};
use sig_tree::{BinOp, UnOp};
use std::alloc::{AllocError, Global};

/// The kind of what is kept: boolean for an event.
pub fn stored(kind: Kind) -> Kind
    ensures { result ≡ stored kind }
{
    match kind {
        Kind::Integer => Kind::Integer,
        Kind::Boolean => Kind::Boolean,
        Kind::Event => Kind::Boolean,
    }
}

/// The kind of one signal or else another.
fn merged(first: Kind, second: Kind) -> Kind
    ensures { result ≡ merged first second }
{
    match (first, second) {
        (Kind::Integer, _) => Kind::Integer,
        (Kind::Boolean, _) => Kind::Boolean,
        (Kind::Event, Kind::Event) => Kind::Event,
        (Kind::Event, _) => Kind::Boolean,
    }
}

/// The kind of an operator of one operand.
pub fn unary_kind(op: UnOp, operand: Kind) -> Kind
    ensures { result ≡ kind_of_result (unary_row op).result operand None }
{
    match op {
        UnOp::Not => Kind::Boolean,
        UnOp::Neg => Kind::Integer,
        UnOp::When | UnOp::Clock => Kind::Event,
    }
}

/// The kind of an operator of two operands.
pub fn binary_kind(op: BinOp, first: Kind, second: Kind) -> Kind
    ensures { result ≡ kind_of_result (binary_row op).result first (Some second) }
{
    match op {
        BinOp::Default => merged(first, second),
        BinOp::When => first,
        BinOp::Plus | BinOp::Meet | BinOp::Less => Kind::Event,
        BinOp::Or | BinOp::Xor | BinOp::And => Kind::Boolean,
        BinOp::Eq | BinOp::Ne | BinOp::Lt | BinOp::Le | BinOp::Gt | BinOp::Ge => Kind::Boolean,
        BinOp::Add | BinOp::Sub | BinOp::Mul | BinOp::Div | BinOp::Mod => Kind::Integer,
    }
}

/// A function of one operand.
pub fn function_of_one(alloc: Global, y: SigId, op: FunOp, x: Operand) -> Result<Form, AllocError>
    ensures { IfOk result (λ form. form ≡ Fun y op (x ∷ [])) }
{
    let operands = [x].to_vec(alloc)?;
    Ok(Form::Fun(y, op, Operands::from(operands)))
}

/// A function of two operands.
fn function_of_two(
    alloc: Global,
    y: SigId,
    op: FunOp,
    u: Operand,
    v: Operand,
) -> Result<Form, AllocError>
    ensures { IfOk result (λ form. form ≡ Fun y op (u ∷ v ∷ [])) }
{
    let operands = [u, v].to_vec(alloc)?;
    Ok(Form::Fun(y, op, Operands::from(operands)))
}

/// The equation of an operator of one operand.
pub fn unary_form(alloc: Global, op: UnOp, x: Operand, y: SigId) -> Result<Form, AllocError>
    ensures { IfOk result (λ form. form ≡ unary_form op x y) }
{
    match op {
        UnOp::Not => function_of_one(alloc, y, FunOp::Not, x),
        UnOp::Neg => function_of_one(alloc, y, FunOp::Neg, x),
        UnOp::When => Ok(Form::WhenConst(y, 1, signal_in(x))),
        UnOp::Clock => Ok(Form::Event(y, signal_in(x))),
    }
}

/// The equation of an operand where a truth is.
fn sampled_form(x: Operand, b: Operand, y: SigId) -> Form
    ensures { result ≡ sampled_form x b y }
{
    match x {
        Operand::Sig(x) => Form::When(y, x, signal_in(b)),
        Operand::Const(constant) => Form::WhenConst(y, constant, signal_in(b)),
    }
}

/// The equation of an operator of two operands that is no operator on clocks.
pub fn binary_form(
    alloc: Global,
    op: BinOp,
    u: Operand,
    v: Operand,
    y: SigId,
) -> Result<Form, AllocError>
    requires plus { op ≢ BinOp.Plus }
    requires meet { op ≢ BinOp.Meet }
    requires less { op ≢ BinOp.Less }
    ensures { IfOk result (λ form. form ≡ binary_form op u v y) }
{
    let op = match op {
        BinOp::Default => return Ok(Form::Default(y, signal_in(u), signal_in(v))),
        BinOp::When => return Ok(sampled_form(u, v, y)),
        BinOp::Plus | BinOp::Meet | BinOp::Less => unreachable!(),
        BinOp::Or => FunOp::Or,
        BinOp::Xor => FunOp::Xor,
        BinOp::And => FunOp::And,
        BinOp::Eq => FunOp::Eq,
        BinOp::Ne => FunOp::Ne,
        BinOp::Lt => FunOp::Lt,
        BinOp::Le => FunOp::Le,
        BinOp::Gt => FunOp::Gt,
        BinOp::Ge => FunOp::Ge,
        BinOp::Add => FunOp::Add,
        BinOp::Sub => FunOp::Sub,
        BinOp::Mul => FunOp::Mul,
        BinOp::Div => FunOp::Div,
        BinOp::Mod => FunOp::Mod,
    };
    function_of_two(alloc, y, op, u, v)
}
