//! Equations, processes and programs.

use crate::expr::{Constant, Expr, Name};
use sig_base::{Kind, Span, Text};

/// A declared name, with its init where it has one.
#[derive(Debug, Drop)]
pub struct Item {
    pub name: Name,
    pub init: Option<Constant>,
}

/// Names of one kind that are declared together.
#[derive(Debug, Drop)]
pub struct Group {
    pub kind: Kind,
    pub items: Vec<Item>,
}

/// A pragma `RunOn`: the names of signals and the label that says their cluster, without its quotes.
/// Its place is that of the word `RunOn`.
#[derive(Debug, Drop)]
pub struct RunOn {
    pub names: Vec<Name>,
    pub label: Text,
    pub at: Span,
}

/// The right side of a definition: an expression, or a call of a process with constants for its
/// parameters and expressions for its inputs.
#[derive(Debug, Drop)]
pub enum Right {
    Value(Expr),
    Call(Name, Vec<Constant>, Vec<Expr>),
}

/// What a process says: several bodies together, a definition of one or more signals, or a clock
/// equation between two or more expressions.
#[derive(Debug, Drop)]
pub enum Body {
    All(Vec<Body>),
    Def(Vec<Name>, Right),
    Same(Vec<Expr>),
}

/// A process: its name, its parameters, its interface, its pragmas, its body, and what it declares
/// after `where`: signals, and processes.
#[derive(Debug, Drop)]
pub struct Process {
    pub name: Name,
    pub params: Vec<Group>,
    pub inputs: Vec<Group>,
    pub outputs: Vec<Group>,
    pub run_on: Vec<RunOn>,
    pub body: Body,
    pub locals: Vec<Group>,
    pub inner: Vec<Process>,
}

/// A program: its processes, of which there is at least one. The first is the one that is compiled.
#[derive(Debug, Drop)]
pub struct Program {
    pub processes: Vec<Process>,
}
