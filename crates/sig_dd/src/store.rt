//! A store of diagrams.

ghost use Rattle.std.specs.Prelude.{suc, ◌≡◌, ◌≢◌, ◌+◌, ◌^◌, ◌<◌, ◌≤◌, ℕ, List, [], length, IfOk, IfSome, OnErr, Ok, Err, Some, None, if◌then◌else◌};
ghost use Rattle.sig_dd.specs.Diagram.{value_at, truth_of, StartsFrom};
ghost use Rattle.sig_dd.specs.Nodes.{StoreView, IsStore, IsRefOf, Holds, Keeps, node_of, diagram, test, IsFull, IsChoice};

use crate::answer::DdAnswer;
use crate::cache::Choice;
use crate::keyed::Keyed;
use crate::node::{Node, Ref};
use indexmap::IndexSet;
use lru::LruCache;
use std::alloc::Global;
use std::marker::Model;
use std::num::NonZeroUsize;

/// How many answers of choices a store keeps.
pub(crate) const KEPT: usize = 65_536;

/// The most nodes whose references fit 32 bits beside the two constants.
const NUMBERS: usize = 0xffff_fffe;

/// A store of diagrams: each function that was made in it has one reference, and keeps it while
/// the store grows. A call that makes functions goes down their variables, so it recurses as deep
/// as there are variables. Where it is refused, the store keeps the nodes that it added.
#[derive(Drop)]
pub struct Store {
    nodes: IndexSet<Node, Keyed>,
    made_for: u32,
    pub(crate) cache: LruCache<Choice, Ref, Keyed>,
    keyed: Keyed,
    alloc: Global,
}

impl Model for Store {
    ghost use Rattle.sig_dd.specs.Nodes.{StoreView};
    ghost use Rattle.sig_dd.specs.Cache.{IsInside};

    ghost Value = { StoreView };

    ghost view = { λ s. record { nodes = s.nodes.keys; made_for = s.made_for } };

    ghost invariant = { λ s. IsInside (record { nodes = s.nodes.keys; made_for = s.made_for }) s.cache.entries };
}

impl Store {
    /// An empty store for at most this many nodes, with the table of its cache.
    pub fn new(alloc: Global, nodes: u32) -> Result<Store, DdAnswer>
        ensures store { IfOk result IsStore }
        ensures empty { IfOk result (λ s. s.nodes ≡ []) }
        ensures made_for { IfOk result (λ s. s.made_for ≡ nodes) }
        ensures no_budget { (n : ℕ) → result ≢ Err (DdAnswer.Budget n) }
    {
        Store::keyed(alloc, nodes, Keyed::by(0))
    }

    /// The same, with its nodes and answers hashed by this key.
    pub fn keyed(alloc: Global, nodes: u32, keyed: Keyed) -> Result<Store, DdAnswer>
        ensures store { IfOk result IsStore }
        ensures empty { IfOk result (λ s. s.nodes ≡ []) }
        ensures made_for { IfOk result (λ s. s.made_for ≡ nodes) }
        ensures no_budget { (n : ℕ) → result ≢ Err (DdAnswer.Budget n) }
    {
        Ok(Store {
            nodes: IndexSet::with_hasher(alloc, keyed),
            made_for: nodes,
            cache: LruCache::with_hasher(alloc, NonZeroUsize::new(KEPT).unwrap(), keyed)?,
            keyed,
            alloc,
        })
    }

    /// How many nodes the store holds.
    pub fn len(&self) -> u32
        ensures store { IsStore self.now }
        ensures len { result ≡ length self.now.nodes }
    {
        self.nodes.len() as u32
    }

    /// The constant function of this truth.
    pub fn constant(&self, truth: bool) -> Ref
        ensures store { IsStore self.now }
        ensures value { IsRefOf self.now.nodes (λ _. truth) result }
    {
        // What holds of every store is known where its fields are read.
        let _nodes = &self.nodes;
        Ref::constant(truth)
    }

    /// The allocator that the store was made with.
    pub(crate) fn allocator(&self) -> Global
        ensures store { IsStore self.now }
        ensures numbered { length self.now.nodes + 2 ≤ 2 ^ 32 }
    {
        self.alloc
    }

    /// How the store hashes.
    pub(crate) fn hashing(&self) -> Keyed {
        self.keyed
    }

    /// The node that a reference of the store names; a constant names none.
    pub fn node(&self, r: Ref) -> Option<Node>
        requires { Holds self.now.nodes r }
        ensures store { IsStore self.now }
        ensures node { result ≡ node_of self.now.nodes r }
    {
        let nodes = &self.nodes;
        if r.number < 2 {
            return None;
        }
        nodes.get_index((r.number - 2) as usize).copied()
    }

    /// The reference to the choice by a variable between two functions of later variables. It adds
    /// a node at most, and none where it is refused.
    pub(crate) fn node_for(&mut self, variable: u32, low: Ref, high: Ref) -> Result<Ref, DdAnswer>
        requires low { Holds self.old.nodes low }
        requires high { Holds self.old.nodes high }
        requires low_later { StartsFrom (suc variable) (diagram self.old.nodes low) }
        requires high_later { StartsFrom (suc variable) (diagram self.old.nodes high) }
        ensures store { IsStore self.new }
        ensures kept { Keeps self.old self.new }
        ensures value { IfOk result (IsChoice self.old.nodes self.new.nodes variable low high) }
        ensures added { length self.new.nodes ≤ length self.old.nodes + 1 }
        ensures refused { OnErr result (self.new.nodes ≡ self.old.nodes) }
        ensures full { (n : ℕ) → result ≡ Err (DdAnswer.Budget n) → IsFull self.new n }
    {
        let count = self.nodes.len();
        if low == high {
            return Ok(low);
        }
        let node = Node {
            variable,
            low,
            high,
        };
        if count < self.made_for as usize && count < NUMBERS {
            let (place, _) = self.nodes.insert_full(node)?;
            return Ok(Ref::to_node(place));
        }
        match self.nodes.get_index_of(&node) {
            Some(place) => Ok(Ref::to_node(place)),
            None if count < NUMBERS => Err(DdAnswer::Budget(self.made_for)),
            // No number is left for the node, though the store was made for more of them.
            None => Err(DdAnswer::OutOfMemory),
        }
    }
}
