//! The nodes of guards, numbered by their first visit.

ghost use Rattle.std.specs.Prelude.{◌≡◌, ◌<◌, ◌+◌};
ghost use Rattle.sig_file.specs.Prelude.{ℕ, List, [], Node, Err, IfOk, IfSome, OnOk, None, length};
ghost use Rattle.sig_dd.specs.Nodes.{Holds, IsStore, diagram, node_of};
ghost use Rattle.sig_file.specs.inner.Numbering.{AreNumbered, IsNumbered};
ghost use Rattle.sig_file.specs.PlanImages.{place_of, visited, with_node};
ghost use Rattle.sig_file.specs.declared.images.ImageNode.{ImageNode};
ghost use Rattle.sig_file.specs.declared.limits.TheConstants.{IMAGE_BYTES, ROOM_FOR_NODES};

use crate::answer::FileAnswer;
use crate::images::ImageNode;
use crate::limits::{IMAGE_BYTES, ROOM_FOR_NODES};
use indexmap::IndexSet;
use sig_dd::{Ref, Store};
use std::alloc::{AllocError, Global};
use std::collections::HashMap;

/// The nodes so far, and the numbers of the functions that were visited.
#[derive(Drop)]
pub struct Numbering {
    pub numbers: HashMap<Ref, u32>,
    pub nodes: IndexSet<ImageNode>,
}

/// The number of a constant function.
fn constant_number(store: &Store, r: Ref) -> u32
    requires held { Holds store.now.nodes r }
    requires constant { node_of store.now.nodes r ≡ None }
    ensures { (nodes : List ImageNode) → IsNumbered nodes (diagram store.now.nodes r) result }
{
    if r == store.constant(true) { 1 } else { 0 }
}

/// Adds a node, unless it is among the nodes, and gives its number.
fn add_node(nodes: &mut IndexSet<ImageNode>, node: ImageNode) -> Result<u32, FileAnswer>
    ensures nodes { OnOk result (nodes.new.keys ≡ with_node node.variable node.low node.high nodes.old.keys) }
    ensures number { IfOk result (λ n. n ≡ place_of node.variable node.low node.high nodes.old.keys + 2) }
    ensures limit { (limit : ℕ) → result ≡ Err (FileAnswer.TooLong limit) → limit ≡ IMAGE_BYTES }
    ensures long { (limit : ℕ) → result ≡ Err (FileAnswer.TooLong limit)
        → ROOM_FOR_NODES < length (with_node node.variable node.low node.high nodes.old.keys) }
{
    let (place, _) = nodes.insert_full(node)?;
    if place >= ROOM_FOR_NODES {
        return Err(FileAnswer::TooLong(IMAGE_BYTES));
    }
    Ok(place as u32 + 2)
}

impl Numbering {
    /// No nodes.
    pub fn new(alloc: Global) -> Numbering
        ensures nodes { result.nodes.keys ≡ [] }
        ensures numbered { (store : List Node) → AreNumbered ⟦<Ref as PartialEq>⟧.eq store [] result.numbers }
    {
        Numbering {
            numbers: HashMap::new(alloc),
            nodes: IndexSet::new(alloc),
        }
    }

    /// The number of a function: that of its constant, or of its node, the child for false being
    /// numbered first, then the child for true, then the node. It recurses as deep as there are
    /// variables.
    pub fn number(&mut self, store: &Store, r: Ref) -> Result<u32, FileAnswer>
        requires held { Holds store.now.nodes r }
        requires numbered { AreNumbered ⟦<Ref as PartialEq>⟧.eq store.now.nodes self.old.nodes.keys self.old.numbers }
        ensures numbered { OnOk result (AreNumbered ⟦<Ref as PartialEq>⟧.eq store.now.nodes self.new.nodes.keys self.new.numbers) }
        ensures visited { IfOk result (λ n. visited (diagram store.now.nodes r) self.old.nodes.keys ≡ (self.new.nodes.keys, n)) }
        ensures limit { (limit : ℕ) → result ≡ Err (FileAnswer.TooLong limit) → limit ≡ IMAGE_BYTES }
        ensures long { (limit : ℕ) → result ≡ Err (FileAnswer.TooLong limit)
            → ROOM_FOR_NODES < length (visited (diagram store.now.nodes r) self.old.nodes.keys).0 }
    {
        let Some(node) = store.node(r) else {
            return Ok(constant_number(store, r));
        };
        if let Some(number) = self.numbers.get(&r) {
            return Ok(*number);
        }
        let low = self.number(store, node.low)?;
        let high = self.number(store, node.high)?;
        let number = add_node(
            &mut self.nodes,
            ImageNode {
                variable: node.variable,
                low,
                high,
            },
        )?;
        keep(&mut self.numbers, r, number)?;
        Ok(number)
    }
}

/// Keeps the number of a function.
fn keep(numbers: &mut HashMap<Ref, u32>, r: Ref, number: u32) -> Result<(), AllocError>
    ensures { OnOk result ((store : List Node) (nodes : List ImageNode) → IsNumbered nodes (diagram store r) number
        → AreNumbered ⟦<Ref as PartialEq>⟧.eq store nodes numbers.old → AreNumbered ⟦<Ref as PartialEq>⟧.eq store nodes numbers.new) }
{
    numbers.insert(r, number)?;
    Ok(())
}
