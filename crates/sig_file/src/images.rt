//! Images.

use sig_base::{Kind, SigId, Span, Text};
use sig_kernel::{FunOp, Operands};
use std::marker::Model;

/// A signal of an image: the kind of its values, and its name.
#[derive(Drop)]
pub struct ImageSignal {
    pub kind: Kind,
    pub name: Text,
}

/// A memory of an image: the kind of what it keeps, integer or boolean, and what it has at first.
#[derive(Clone, Copy)]
pub struct ImageMemory {
    pub kind: Kind,
    pub init: i64,
}

/// A node of the diagrams that the guards are: the number of its condition, and its children where
/// this is false and where it is true. Child 0 is false, 1 is true, and n + 2 is node n.
#[derive(Clone, Copy, PartialEq, Eq, PartialOrd, Ord, Hash)]
pub struct ImageNode {
    pub variable: u32,
    pub low: u32,
    pub high: u32,
}

/// What an operation of an image does.
#[derive(Drop)]
pub enum ImageOpKind {
    /// The input takes its next value.
    Read(SigId),
    /// The signal takes the value of a function.
    Fun(SigId, FunOp, Operands),
    /// The signal takes the value of another one.
    Copy(SigId, SigId),
    /// The signal takes a constant.
    Const(SigId, i64),
    /// The signal takes the value of a memory.
    DelayRead(SigId, u32),
    /// The memory takes the value of a signal.
    Store(u32, SigId),
}

/// An operation of an image, its guard, numbered as a child is, and its place in the program.
#[derive(Drop)]
pub struct ImageOp {
    pub kind: ImageOpKind,
    pub guard: u32,
    pub at: Span,
}

/// An image: signals, the inputs first and then the outputs, the conditions, for which the variables of
/// nodes stand, the memories, the nodes, and the operations in the order in which they are done.
#[derive(Drop)]
pub struct Image {
    pub signals: Vec<ImageSignal>,
    pub inputs: u32,
    pub outputs: u32,
    pub conditions: Vec<SigId>,
    pub memories: Vec<ImageMemory>,
    pub nodes: Vec<ImageNode>,
    pub ops: Vec<ImageOp>,
}

impl Model for Image {
    ghost use Rattle.sig_file.specs.Images.{ImageView, IsImage};

    ghost Value = { ImageView };

    ghost view = { λ image. record {
      signals = image.signals.items;
      inputs = image.inputs;
      outputs = image.outputs;
      conditions = image.conditions.items;
      memories = image.memories.items;
      nodes = image.nodes.items;
      ops = image.ops.items;
    } };

    ghost invariant = { λ image. IsImage (record {
      signals = image.signals.items;
      inputs = image.inputs;
      outputs = image.outputs;
      conditions = image.conditions.items;
      memories = image.memories.items;
      nodes = image.nodes.items;
      ops = image.ops.items;
    }) };
}
