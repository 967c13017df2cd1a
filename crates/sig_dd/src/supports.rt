//! The variables on which functions depend, of many functions at once.

ghost use Rattle.std.specs.Prelude.{◌≡◌, ◌≢◌, ◌↔◌, ◌<◌, ◌≤◌, ◌+◌, ◌*◌, ◌^◌, ◌⊎◌, [], ℕ, List, All, Err, IfOk, IfSome, OnOk, IsTrue, length, map, slice_index_or};
ghost use Rattle.std.specs.Int.{bit_at};
ghost use Rattle.sig_dd.specs.Diagram.{Tests};
ghost use Rattle.sig_dd.specs.Nodes.{Holds, IsStore, diagram, node_of};
ghost use Rattle.sig_dd.specs.Supports.{AreMasks, AreSupports, AreTestedBelow, HasBit, IsMask, IsTestedBelow, added};
ghost use Rattle.sig_dd.specs.declared.node.Node.{Node};
ghost use Rattle.sig_dd.specs.declared.node.Ref.{Ref};

use crate::answer::DdAnswer;
use crate::node::Ref;
use crate::store::Store;
use std::alloc::{AllocError, Global};
use std::marker::Model;

/// How many variables one walk over the nodes tells: a bit of a mask for each.
const BLOCK: u32 = 64;

/// Variables. Contracts see the list.
#[derive(Drop)]
pub struct VariableList {
    list: Vec<u32>,
}

impl Model for VariableList {
    ghost use Rattle.std.specs.Prelude.{List, ℕ};

    ghost Value = { List ℕ };

    ghost view = { λ variables. variables.list.items };
}

impl VariableList {
    /// No variable.
    fn new(alloc: Global) -> VariableList
        ensures { result ≡ [] }
    {
        VariableList {
            list: Vec::new(alloc),
        }
    }

    /// The variables.
    pub fn as_slice(&self) -> &[u32]
        ensures { result.now ≡ self.now }
    {
        self.list.as_slice()
    }

    /// Adds a variable, where it is chosen.
    fn add(&mut self, variable: u32, chosen: bool) -> Result<(), AllocError>
        ensures { OnOk result (self.new ≡ added self.old variable chosen) }
    {
        if chosen {
            self.list.push(variable)?;
        }
        Ok(())
    }

    /// Adds those variables of a block whose bit is set.
    fn add_block(&mut self, block: u32, mask: u64) -> Result<(), AllocError>
        requires { block < 2 ^ 26 }
        ensures { OnOk result ((nodes : List Node) (r : Ref) → IsMask nodes block r mask
            → IsTestedBelow nodes (block * 64) r self.old → IsTestedBelow nodes (block * 64 + 64) r self.new) }
    {
        for place in 0..BLOCK {
            self.add(block * BLOCK + place, has_bit(mask, place))?;
        }
        Ok(())
    }
}

/// Whether the bit of a mask at a place is set.
fn has_bit(mask: u64, place: u32) -> bool
    requires { place < 64 }
    ensures { IsTrue result ↔ HasBit mask place }
{
    (mask >> place) & 1 == 1
}

/// The bit of a variable in the mask of a block.
fn bit_of(variable: u32, block: u32) -> u64
    ensures { (place : ℕ) → place < 64 → HasBit result place ↔ (variable ≡ block * 64 + place) }
{
    if variable / BLOCK == block {
        1 << (variable % BLOCK)
    } else {
        0
    }
}

/// A list of no variable for each of so many functions.
fn none_each(alloc: Global, count: usize) -> Result<Vec<VariableList>, AllocError>
    ensures count { IfOk result (λ lists. length lists.items ≡ count) }
    ensures empty { IfOk result (λ lists. (i : ℕ) → slice_index_or lists.items i [] ≡ []) }
{
    let mut lists = Vec::new(alloc);
    for _ in 0..count {
        lists.push(VariableList::new(alloc))?;
    }
    Ok(lists)
}

/// Adds to the list of each function the variables of a block that its mask tells.
fn add_block_each(
    lists: &mut [VariableList],
    roots: &[Ref],
    block: u32,
    masks: &[u64],
) -> Result<(), AllocError>
    requires block { block < 2 ^ 26 }
    requires within { All (λ r. r.number < length masks.now) roots.now }
    requires count { length lists.old ≡ length roots.now }
    ensures { OnOk result ((nodes : List Node) → AreMasks nodes block masks.now
        → AreTestedBelow nodes (block * 64) roots.now lists.old
        → AreTestedBelow nodes (block * 64 + 64) roots.now lists.new) }
{
    for (place, root) in roots.iter().enumerate() {
        lists[place].add_block(block, masks[root.number as usize])?;
    }
    Ok(())
}

/// The greater of two numbers.
fn greater(a: u32, b: u32) -> u32
    ensures first { a ≤ result }
    ensures second { b ≤ result }
    ensures one { (result ≡ a) ⊎ (result ≡ b) }
{
    if a < b { b } else { a }
}

/// One more than the greatest number of these references.
fn count_of(roots: &[Ref]) -> usize
    ensures within { All (λ r. r.number < result) roots.now }
    ensures least { (count : ℕ) → All (λ r. r.number < count) roots.now → result ≤ count }
{
    let mut count = 0;
    for root in roots {
        count = count.max(root.number as usize + 1);
    }
    count
}

impl Store {
    /// The variables on which each of the functions depends, in increasing order. The nodes up to the
    /// last of the functions are walked over once for each 64 variables, however many functions there are.
    pub fn supports(&self, roots: &[Ref]) -> Result<Vec<VariableList>, DdAnswer>
        requires { All (λ f. Holds self.now.nodes f) roots.now }
        ensures store { IsStore self.now }
        ensures value { IfOk result (λ lists. AreSupports self.now.nodes roots.now lists.items) }
        ensures no_budget { (n : ℕ) → result ≢ Err (DdAnswer.Budget n) }
    {
        let mut lists = none_each(self.allocator(), roots.len())?;
        let count = count_of(roots);
        for block in 0..self.blocks(count) {
            let masks = self.masks(block, count)?;
            add_block_each(&mut lists, roots, block, masks.as_slice())?;
        }
        Ok(lists)
    }

    /// How many blocks have the variables that so many references test.
    fn blocks(&self, count: usize) -> u32
        requires held { count ≤ length self.now.nodes + 2 }
        requires numbered { count ≤ 2 ^ 32 }
        ensures few { result ≤ 2 ^ 26 }
        ensures all { (r : Ref) → r.number < count → (v : ℕ) → Tests (diagram self.now.nodes r) v → v < result * 64 }
    {
        let mut blocks = 0;
        for number in 0..count {
            let r = Ref {
                number: number as u32,
            };
            blocks = greater(blocks, self.block_of(r));
        }
        blocks
    }

    /// One more than the block of the variable that the reference tests first, where it tests any.
    fn block_of(&self, r: Ref) -> u32
        requires { Holds self.now.nodes r }
        ensures store { IsStore self.now }
        ensures few { result ≤ 2 ^ 26 }
        ensures past { IfSome (node_of self.now.nodes r) (λ n. n.variable < result * 64) }
    {
        match self.node(r) {
            Some(n) => n.variable / BLOCK + 1,
            None => 0,
        }
    }

    /// To each of so many references the mask of a block: the bits of the variables that its diagram
    /// tests.
    fn masks(&self, block: u32, count: usize) -> Result<Vec<u64>, AllocError>
        requires held { count ≤ length self.now.nodes + 2 }
        requires numbered { count ≤ 2 ^ 32 }
        ensures count { IfOk result (λ masks. length masks.items ≡ count) }
        ensures masks { IfOk result (λ masks. AreMasks self.now.nodes block masks.items) }
    {
        let mut masks = Vec::with_capacity(self.allocator(), count)?;
        for number in 0..count {
            let r = Ref {
                number: number as u32,
            };
            masks.push(self.mask_of(block, r, masks.as_slice()))?;
        }
        Ok(masks)
    }

    /// The mask of a reference, where those of the ones before it are known.
    fn mask_of(&self, block: u32, r: Ref, masks: &[u64]) -> u64
        requires held { Holds self.now.nodes r }
        requires before { r.number ≤ length masks.now }
        requires masks { AreMasks self.now.nodes block masks.now }
        ensures { IsMask self.now.nodes block r result }
    {
        match self.node(r) {
            Some(n) => {
                let own = bit_of(n.variable, block);
                own | masks[n.low.number as usize] | masks[n.high.number as usize]
            }
            None => 0,
        }
    }
}
