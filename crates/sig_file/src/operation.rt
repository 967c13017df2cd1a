//! Operations.

ghost use Rattle.std.specs.Prelude.{◌≡◌};
ghost use Rattle.sig_file.specs.Prelude.{nat_lt};
ghost use Rattle.sig_file.specs.Fields.{fields_at, op_at, ops_at};
ghost use Rattle.sig_file.specs.inner.Reading.{Gives, number_if};

use crate::choice::OpTag;
use crate::field::{choice_at, long_at, number_at};
use crate::fits::{accepts, accepts_value, is_same, kind_at, memory_at};
use crate::images::{ImageMemory, ImageOp, ImageOpKind, ImageSignal};
use crate::operand::function_at;
use crate::stop::Stop;
use sig_base::{SigId, Span};
use std::alloc::Global;
use std::marker::Model;

/// What operations name: the signals, how many of them are inputs, the memories, and how many nodes
/// there are.
#[derive(Drop)]
pub struct Scope<'a> {
    pub signals: &'a [ImageSignal],
    pub inputs: u32,
    pub memories: &'a [ImageMemory],
    pub nodes: u32,
}

impl<'a> Model for Scope<'a> {
    ghost use Rattle.sig_file.specs.Images.{Scope as Named};

    ghost Value = { Named };

    ghost view = { λ scope. record {
      signals = scope.signals.now;
      inputs = scope.inputs;
      memories = scope.memories.now;
      nodes = scope.nodes;
    } };
}

/// A number below a bound, and the bytes behind it.
fn below(bound: usize, bytes: &[u8]) -> Result<(u32, &[u8]), Stop>
    ensures { Gives (λ x. (x.0, x.1.now)) result (number_if (λ n. nat_lt n bound) bytes.now) }
{
    let (n, rest) = number_at(bytes)?;
    if n as usize >= bound {
        return Err(Stop::Broken(bytes.len()));
    }
    Ok((n, rest))
}

impl Scope<'_> {
    /// The fields of a copy.
    #[tactic(auto, unfolding(crate::specs::Fields::fields_at))]
    fn copy_at<'a>(&self, bytes: &'a [u8]) -> Result<(ImageOpKind, &'a [u8]), Stop>
        ensures { Gives (λ x. (x.0, x.1.now)) result (fields_at self.now OpTag.Copy bytes.now) }
    {
        let (y, rest) = below(self.signals.len(), bytes)?;
        let (x, after) = number_at(rest)?;
        if !accepts(kind_at(self.signals, y), kind_at(self.signals, x)) {
            return Err(Stop::Broken(rest.len()));
        }
        Ok((ImageOpKind::Copy(SigId(y), SigId(x)), after))
    }

    /// The fields of a constant.
    #[tactic(auto, unfolding(crate::specs::Fields::fields_at))]
    fn const_at<'a>(&self, bytes: &'a [u8]) -> Result<(ImageOpKind, &'a [u8]), Stop>
        ensures { Gives (λ x. (x.0, x.1.now)) result (fields_at self.now OpTag.Const bytes.now) }
    {
        let (y, rest) = below(self.signals.len(), bytes)?;
        let (value, after) = long_at(rest)?;
        if !accepts_value(kind_at(self.signals, y), value) {
            return Err(Stop::Broken(rest.len()));
        }
        Ok((ImageOpKind::Const(SigId(y), value), after))
    }

    /// The fields of a read of a memory.
    #[tactic(auto, unfolding(crate::specs::Fields::fields_at))]
    fn delay_read_at<'a>(&self, bytes: &'a [u8]) -> Result<(ImageOpKind, &'a [u8]), Stop>
        ensures { Gives (λ x. (x.0, x.1.now)) result (fields_at self.now OpTag.DelayRead bytes.now) }
    {
        let (y, rest) = below(self.signals.len(), bytes)?;
        let (m, after) = number_at(rest)?;
        if !is_same(kind_at(self.signals, y), memory_at(self.memories, m)) {
            return Err(Stop::Broken(rest.len()));
        }
        Ok((ImageOpKind::DelayRead(SigId(y), m), after))
    }

    /// The fields of a store.
    #[tactic(auto, unfolding(crate::specs::Fields::fields_at))]
    fn store_at<'a>(&self, bytes: &'a [u8]) -> Result<(ImageOpKind, &'a [u8]), Stop>
        ensures { Gives (λ x. (x.0, x.1.now)) result (fields_at self.now OpTag.Store bytes.now) }
    {
        let (m, rest) = below(self.memories.len(), bytes)?;
        let (x, after) = number_at(rest)?;
        if !accepts(memory_at(self.memories, m), kind_at(self.signals, x)) {
            return Err(Stop::Broken(rest.len()));
        }
        Ok((ImageOpKind::Store(m, SigId(x)), after))
    }

    /// The fields of an operation behind its place.
    #[tactic(auto, unfolding(crate::specs::Fields::fields_at))]
    fn fields_at<'a>(
        &self,
        alloc: Global,
        tag: OpTag,
        bytes: &'a [u8],
    ) -> Result<(ImageOpKind, &'a [u8]), Stop>
        ensures { Gives (λ x. (x.0, x.1.now)) result (fields_at self.now tag bytes.now) }
    {
        match tag {
            OpTag::Read => {
                let (x, rest) = below(self.inputs as usize, bytes)?;
                Ok((ImageOpKind::Read(SigId(x)), rest))
            }
            OpTag::Fun => {
                let (y, rest) = below(self.signals.len(), bytes)?;
                function_at(alloc, self.signals, y, rest)
            }
            OpTag::Copy => self.copy_at(bytes),
            OpTag::Const => self.const_at(bytes),
            OpTag::DelayRead => self.delay_read_at(bytes),
            OpTag::Store => self.store_at(bytes),
        }
    }

    /// An operation, and the bytes behind it.
    #[tactic(auto, unfolding(crate::specs::Fields::op_at))]
    fn op_at<'a>(&self, alloc: Global, bytes: &'a [u8]) -> Result<(ImageOp, &'a [u8]), Stop>
        ensures { Gives (λ x. (x.0, x.1.now)) result (op_at self.now bytes.now) }
    {
        let tags = [
            OpTag::Read,
            OpTag::Fun,
            OpTag::Copy,
            OpTag::Const,
            OpTag::DelayRead,
            OpTag::Store,
        ];
        let (tag, rest) = choice_at(&tags, bytes)?;
        let (guard, rest) = below(self.nodes as usize + 2, rest)?;
        let (line, rest) = number_at(rest)?;
        let (col, rest) = number_at(rest)?;
        let (kind, rest) = self.fields_at(alloc, tag, rest)?;
        let at = Span { line, col };
        Ok((ImageOp { kind, guard, at }, rest))
    }

    /// So many operations, and the bytes behind them.
    pub fn ops_at<'a>(
        &self,
        alloc: Global,
        count: u32,
        bytes: &'a [u8],
    ) -> Result<(Vec<ImageOp>, &'a [u8]), Stop>
        ensures { Gives (λ x. (x.0.items, x.1.now)) result (ops_at self.now count bytes.now) }
    {
        let mut ops = Vec::new(alloc);
        let mut rest = bytes;
        for _ in 0..count {
            let (op, after) = self.op_at(alloc, rest)?;
            ops.push(op)?;
            rest = after;
        }
        Ok((ops, rest))
    }
}
