//! Equations with the values that their expressions keep.

ghost use Rattle.std.specs.Prelude.{◌≡◌, ◌⊎◌, ◌↔◌};
ghost use Rattle.sig_judge.specs.Prelude.{None, Some, IfOk, IsTrue, length, map, flat_equation_of, flat_expression_of, Signal, EquationSteps, Steps};
ghost use Rattle.sig_judge.specs.inner.Decides.{Agree, DecidesPresence, DecidesWhether};
ghost use Rattle.sig_judge.specs.inner.Nodes.{equation_of, node_expression, without_prefix};
ghost use Rattle.sig_judge.specs.Rows.{seen_of};

use crate::node::{Node, signal};
use crate::trace::{Row, Seen};
use sig_base::SigId;
use sig_tree::{FlatEq, FlatExpr, expressions_step};
use std::alloc::{AllocError, Global};

/// An equation of a flat body, as it is behind some instants.
#[derive(Debug, Drop)]
pub enum Equation {
    Defines(SigId, Node),
    Equal(Vec<Node>),
}

impl Equation {
    /// An equation, before the first instant.
    pub fn of(alloc: Global, equation: &FlatEq) -> Result<Equation, AllocError>
        ensures { IfOk result (λ e. equation_of e ≡ without_prefix (flat_equation_of equation.now)) }
    {
        match equation {
            FlatEq::Def(signal, e, _) => Ok(Equation::Defines(*signal, Node::of(alloc, e)?)),
            FlatEq::Same(operands, _) => Ok(Equation::Equal(nodes_of(alloc, operands)?)),
        }
    }

    /// Whether the equation holds at an instant. Behind the instant it is then the one that it steps
    /// to.
    pub fn step(&mut self, row: &Row) -> bool
        ensures { DecidesWhether (EquationSteps row.now (equation_of self.old)) result (equation_of self.new) }
    {
        match self {
            Equation::Defines(signal, e) => is_seen(e, row.at(*signal), row),
            Equation::Equal(operands) => agree(operands, row),
        }
    }
}

/// Expressions, before the first instant.
fn nodes_of(alloc: Global, operands: &[FlatExpr]) -> Result<Vec<Node>, AllocError>
    ensures { IfOk result (λ nodes. map node_expression nodes.items ≡ map flat_expression_of operands.now) }
{
    let mut nodes = Vec::with_capacity(alloc, operands.len())?;
    for operand in operands {
        nodes.push(Node::of(alloc, operand)?)?;
    }
    Ok(nodes)
}

/// Whether an expression is at an instant what is wanted.
fn is_seen(e: &mut Node, wanted: Seen, row: &Row) -> bool
    ensures { DecidesWhether (Steps (node_expression e.old) row.now (Signal (seen_of wanted))) result (node_expression e.new) }
{
    expressions_step();
    match signal(e.step(row)) {
        Some(seen) => seen == wanted,
        None => false,
    }
}

/// Whether an expression is present at an instant, if it has a meaning there.
fn presence(e: &mut Node, row: &Row) -> Option<bool>
    ensures { DecidesPresence (node_expression e.old) row.now result (node_expression e.new) }
{
    expressions_step();
    match signal(e.step(row)) {
        Some(Seen::Absent) => Some(false),
        Some(Seen::Value(_)) => Some(true),
        None => None,
    }
}

/// Whether all operands have a meaning at an instant, and all of them are absent or none is.
fn agree(operands: &mut Vec<Node>, row: &Row) -> bool
    ensures { DecidesWhether (Agree row.now (map node_expression operands.old.items)) result (map node_expression operands.new.items) }
{
    let mut agreed = None;
    for i in 0..operands.len() {
        let Some(present) = presence(&mut operands[i], row) else {
            return false;
        };
        if !agrees(agreed, present) {
            return false;
        }
        agreed = Some(present);
    }
    true
}

/// Whether a presence is that of the operands before, if there is one.
fn agrees(agreed: Option<bool>, present: bool) -> bool
    ensures { IsTrue result ↔ ((agreed ≡ None) ⊎ (agreed ≡ Some present)) }
{
    match agreed {
        None => true,
        Some(before) => before == present,
    }
}
