//! An operand of a step: a reference, and its node, which the step fetches once.

ghost use Rattle.std.specs.Prelude.{◌≡◌};
ghost use Rattle.sig_dd.specs.Nodes.{Holds, IsStore};
ghost use Rattle.sig_dd.specs.Operand.{earlier_of, side_of, IsOperand};

use crate::node::{Node, Ref};
use crate::store::Store;

/// A reference with the node that it names; a constant names none.
#[derive(Clone, Copy)]
pub(crate) struct Operand {
    pub(crate) reference: Ref,
    pub(crate) node: Option<Node>,
}

impl Operand {
    /// The earlier one of a variable and the operand's own.
    pub(crate) fn earlier(&self, variable: u32) -> u32
        ensures { result ≡ earlier_of self.now.node variable }
    {
        match self.node {
            Some(n) if n.variable < variable => n.variable,
            _ => variable,
        }
    }

    /// The function where the variable, before which it tests none, has the truth.
    pub(crate) fn side(&self, variable: u32, truth: bool) -> Ref
        ensures { result ≡ side_of self.now.node self.now.reference variable truth }
    {
        match self.node {
            Some(n) if n.variable == variable => n.child(truth),
            _ => self.reference,
        }
    }
}

impl Store {
    /// The reference with its node.
    pub(crate) fn operand(&self, r: Ref) -> Operand
        requires { Holds self.now.nodes r }
        ensures store { IsStore self.now }
        ensures operand { IsOperand self.now.nodes r result }
    {
        Operand {
            reference: r,
            node: self.node(r),
        }
    }
}
