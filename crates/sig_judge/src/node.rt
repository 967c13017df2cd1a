//! Expressions with the values that their delays and cells keep.

ghost use Rattle.std.specs.Prelude.{◌≡◌};
ghost use Rattle.sig_judge.specs.Prelude.{IfOk, flat_expression_of, delayed, held, kept};
ghost use Rattle.sig_judge.specs.inner.Decides.{DecidesStep};
ghost use Rattle.sig_judge.specs.inner.Nodes.{node_expression, signal_found};
ghost use Rattle.sig_judge.specs.Rows.{seen_of};

use crate::operator::{Found, change, combine};
use crate::presence;
use crate::trace::{Row, Seen};
use sig_base::{Kind, SigId, Span};
use sig_tree::{BinOp, FlatExpr, UnOp, expressions_step};
use std::alloc::{AllocError, Global};

/// The value that a delay or a cell keeps.
#[derive(Clone, Copy, Debug, PartialEq, Eq)]
pub struct Memory {
    pub value: i64,
}

impl Memory {
    /// What a delay of this operand is, whose value is then kept.
    fn delay(&mut self, x: Seen) -> Seen
        ensures is { seen_of result ≡ delayed self.old.value (seen_of x) }
        ensures kept { self.new.value ≡ kept self.old.value (seen_of x) }
    {
        match x {
            Seen::Absent => Seen::Absent,
            Seen::Value(value) => {
                let previous = self.value;
                self.value = value;
                Seen::Value(previous)
            }
        }
    }

    /// What a `cell` of these operands is, whose value is then kept.
    fn hold(&mut self, x: Seen, truth: Seen) -> Seen
        ensures is { seen_of result ≡ held self.old.value (seen_of x) (seen_of truth) }
        ensures kept { self.new.value ≡ kept self.old.value (held self.old.value (seen_of x) (seen_of truth)) }
    {
        let v = presence::held(self.value, x, truth);
        if let Seen::Value(value) = v {
            self.value = value;
        }
        v
    }
}

/// An expression of a flat body, as it is behind some instants.
#[derive(Debug, Drop)]
pub enum Node {
    Sig(SigId, Span),
    Const(i64, Kind, Span),
    Unary(UnOp, Box<Node>, Span),
    Binary(BinOp, Box<Node>, Box<Node>, Span),
    Delay(Box<Node>, Memory, Span),
    Cell(Box<Node>, Box<Node>, Memory, Span),
}

impl Node {
    /// An expression, before the first instant.
    pub fn of(alloc: Global, e: &FlatExpr) -> Result<Node, AllocError>
        ensures { IfOk result (λ node. node_expression node ≡ flat_expression_of e.now) }
    {
        match e {
            FlatExpr::Sig(signal, at) => Ok(Node::Sig(*signal, *at)),
            FlatExpr::Const(value, kind, at) => Ok(Node::Const(*value, *kind, *at)),
            FlatExpr::Unary(op, operand, at) => {
                let operand = Box::new(alloc, Node::of(alloc, operand)?)?;
                Ok(Node::Unary(*op, operand, *at))
            }
            FlatExpr::Binary(op, left, right, at) => {
                let left = Box::new(alloc, Node::of(alloc, left)?)?;
                let right = Box::new(alloc, Node::of(alloc, right)?)?;
                Ok(Node::Binary(*op, left, right, *at))
            }
            FlatExpr::Delay(operand, init, at) => {
                let operand = Box::new(alloc, Node::of(alloc, operand)?)?;
                Ok(Node::Delay(operand, Memory { value: *init }, *at))
            }
            FlatExpr::Cell(operand, truth, init, at) => {
                let operand = Box::new(alloc, Node::of(alloc, operand)?)?;
                let truth = Box::new(alloc, Node::of(alloc, truth)?)?;
                Ok(Node::Cell(operand, truth, Memory { value: *init }, *at))
            }
        }
    }

    /// What the expression is at an instant, if it has a meaning there. Behind the instant it is then
    /// the one that it steps to.
    pub fn step(&mut self, row: &Row) -> Option<Found>
        ensures { DecidesStep (node_expression self.old) row.now result (node_expression self.new) }
    {
        expressions_step();
        match self {
            Node::Sig(signal, _) => Some(Found::Signal(row.at(*signal))),
            Node::Const(value, _, _) => Some(Found::Constant(*value)),
            Node::Unary(op, operand, _) => {
                let x = operand.step(row)?;
                let Some(v) = change(*op, x) else {
                    return None;
                };
                Some(Found::Signal(v))
            }
            Node::Binary(op, left, right, _) => {
                let x = left.step(row)?;
                let y = right.step(row)?;
                let Some(v) = combine(*op, x, y) else {
                    return None;
                };
                Some(Found::Signal(v))
            }
            Node::Delay(operand, memory, _) => {
                let Some(x) = signal(operand.step(row)) else {
                    return None;
                };
                Some(Found::Signal(memory.delay(x)))
            }
            Node::Cell(operand, truth, memory, _) => {
                let Some(x) = signal(operand.step(row)) else {
                    return None;
                };
                let Some(b) = signal(truth.step(row)) else {
                    return None;
                };
                Some(Found::Signal(memory.hold(x, b)))
            }
        }
    }
}

/// What a signal is, where an expression is a signal's.
pub fn signal(found: Option<Found>) -> Option<Seen>
    ensures { result ≡ signal_found found }
{
    match found {
        Some(Found::Signal(seen)) => Some(seen),
        _ => None,
    }
}
