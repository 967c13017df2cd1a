//! Flat bodies: a program whose calls were replaced by the bodies of what they call.

use crate::expr::{BinOp, UnOp};
use sig_base::{Kind, SigId, Signal, Span, Text};

/// An expression over the numbers of signals. The place of an operator is that of its token. A
/// constant is an integer, or a truth as 0 or 1.
#[derive(Debug, Drop)]
pub enum FlatExpr {
    Sig(SigId, Span),
    Const(i64, Kind, Span),
    Unary(UnOp, Box<FlatExpr>, Span),
    Binary(BinOp, Box<FlatExpr>, Box<FlatExpr>, Span),
    /// A delay by one presence, with its init.
    Delay(Box<FlatExpr>, i64, Span),
    /// `cell` of an expression, of the truth that holds it, and its init.
    Cell(Box<FlatExpr>, Box<FlatExpr>, i64, Span),
}

/// The definition of a signal, or a clock equation between expressions. The text is the prefix of
/// the copy in which the equation is written, and is empty in the compiled process.
#[derive(Debug, Drop)]
pub enum FlatEq {
    Def(SigId, FlatExpr, Text),
    Same(Vec<FlatExpr>, Text),
}

/// The flat body of a program. Its signals are the inputs of the compiled process, then its outputs,
/// then its locals, then the signals of copies, each named by its place in the list.
#[derive(Debug, Drop)]
pub struct Flat {
    pub signals: Vec<Signal>,
    pub inputs: u32,
    pub outputs: u32,
    pub body: Vec<FlatEq>,
}
