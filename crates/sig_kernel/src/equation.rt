//! Equations of a kernel.

ghost use Rattle.std.specs.Prelude.{◌≡◌, List};

use sig_base::{SigId, Span};
use std::marker::Model;

/// A function of the values of its operands.
#[derive(Clone, Copy, Debug, PartialEq, Eq)]
pub enum FunOp {
    Id,
    Neg,
    Not,
    And,
    Or,
    Xor,
    Eq,
    Ne,
    Lt,
    Le,
    Gt,
    Ge,
    Add,
    Sub,
    Mul,
    Div,
    Mod,
}

/// An operand of a function: a signal, or a constant. Truths are 0 and 1.
#[derive(Clone, Copy, Debug, PartialEq, Eq)]
pub enum Operand {
    Sig(SigId),
    Const(i64),
}

/// The operands of a function. Contracts see the list.
#[derive(Debug, Drop)]
pub struct Operands {
    pub list: Vec<Operand>,
}

impl Model for Operands {
    ghost use Rattle.std.specs.Prelude.{List};
    ghost use Rattle.sig_kernel.specs.declared.equation.Operand.{Operand};

    ghost Value = { List Operand };

    ghost view = { λ operands. operands.list.items };
}

impl Operands {
    /// The operands.
    pub fn as_slice(&self) -> &[Operand]
        ensures { result.now ≡ self.now }
    {
        self.list.as_slice()
    }
}

impl From<Vec<Operand>> for Operands {
    ghost from_gives = { λ list operands. operands ≡ list.items };

    fn from(list: Vec<Operand>) -> Operands {
        Operands { list }
    }
}

/// The form of an equation. The first signal is the one that it defines, but `Sync` defines none.
#[derive(Debug, Drop)]
pub enum Form {
    /// A function of operands that are present together.
    Fun(SigId, FunOp, Operands),
    /// The value of a signal at its previous presence, at first the constant.
    Delay(SigId, SigId, i64),
    /// A signal where another one is present and true.
    When(SigId, SigId, SigId),
    /// A constant where a signal is present and true.
    WhenConst(SigId, i64, SigId),
    /// A signal where it is present, else another one.
    Default(SigId, SigId, SigId),
    /// Two signals are present together.
    Sync(SigId, SigId),
    /// True where a signal is present.
    Event(SigId, SigId),
}

/// An equation with its place in the program.
#[derive(Debug, Drop)]
pub struct Equation {
    pub form: Form,
    pub at: Span,
}
