//! Nodes in a set.

ghost use Rattle.std.specs.Prelude.{◌≡◌, ◌++◌, ◌∷◌};
ghost use Rattle.sig_file.specs.Prelude.{[], List, IfOk, OnOk, list_any, not};
ghost use Rattle.sig_file.specs.Images.{is_node};
ghost use Rattle.sig_file.specs.inner.NodeSets.{IsNodeSet};
ghost use Rattle.sig_file.specs.declared.images.ImageNode.{ImageNode};

use crate::images::ImageNode;
use std::alloc::{AllocError, Global};
use std::collections::BTreeSet;

/// Some nodes of an image. They are kept in order, so no choice of nodes makes a look long.
#[derive(Drop)]
pub struct NodeSet {
    set: BTreeSet<ImageNode>,
}

impl NodeSet {
    /// No node.
    pub fn new(alloc: Global) -> NodeSet
        ensures { IsNodeSet [] result.set }
    {
        NodeSet {
            set: BTreeSet::new(alloc),
        }
    }

    /// Adds a node, and tells whether it is a new one.
    pub fn add(&mut self, node: ImageNode) -> Result<bool, AllocError>
        ensures new { (nodes : List ImageNode) → IsNodeSet nodes self.old.set
            → IfOk result (λ new. new ≡ not (list_any (is_node node.variable node.low node.high) nodes)) }
        ensures added { (nodes : List ImageNode) → IsNodeSet nodes self.old.set → OnOk result (IsNodeSet (nodes ++ node ∷ []) self.new.set) }
    {
        Ok(self.set.insert(node)?)
    }
}
