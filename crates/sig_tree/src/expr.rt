//! Names, constants and expressions.

use sig_base::{Span, Text};

/// A name with the place where it stands.
#[derive(Debug, Drop)]
pub struct Name {
    pub text: Text,
    pub at: Span,
}

/// A constant of an `init` or of a call: an integer, a truth, or a parameter. The place of an
/// integer that begins with `-` is that of its `-`.
#[derive(Debug, Drop)]
pub enum Constant {
    Int(i64, Span),
    Bool(bool, Span),
    Param(Name),
}

/// An operator with one operand: `not`, `-`, `when` before an expression, and `^`.
#[derive(Clone, Copy, Debug, PartialEq, Eq)]
pub enum UnOp {
    Not,
    Neg,
    When,
    Clock,
}

/// An operator with two operands: `default`, `when`, the operators on clocks `^+` (Plus), `^*` (Meet)
/// and `^-` (Less), those on truths, the relations, and those on integers.
#[derive(Clone, Copy, Debug, PartialEq, Eq)]
pub enum BinOp {
    Default,
    When,
    Plus,
    Meet,
    Less,
    Or,
    Xor,
    And,
    Eq,
    Ne,
    Lt,
    Le,
    Gt,
    Ge,
    Add,
    Sub,
    Mul,
    Div,
    Mod,
}

/// An expression. The place of an operator is that of its token. Parentheses leave no node. An
/// integer is at most 9223372036854775807.
#[derive(Debug, Drop)]
pub enum Expr {
    Name(Name),
    Int(u64, Span),
    Bool(bool, Span),
    Unary(UnOp, Box<Expr>, Span),
    Binary(BinOp, Box<Expr>, Box<Expr>, Span),
    /// A delay by one presence, `$`, with its own init where it has one.
    Delay(Box<Expr>, Option<Constant>, Span),
    /// `cell` of an expression, of the truth that holds it, and of its init.
    Cell(Box<Expr>, Box<Expr>, Constant, Span),
}
