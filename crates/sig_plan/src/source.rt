//! What the operations of a kernel are made of.

ghost use Rattle.std.specs.Prelude.{◌≡◌, ◌<◌, ◌∷◌};
ghost use Rattle.sig_plan.specs.Prelude.{[], ℕ, List, Some, None, IfOk, Contains, length, guard_of, Holds, IsRefOf, IsStore, Keeps, Spans, test, Share, refusal};
ghost use Rattle.sig_plan.specs.inner.Making.{HaveGuards, IsMade};
ghost use Rattle.sig_plan.specs.Operations.{cluster_at, read_of, signal_in, signals_of, store_of, without, writing};

use crate::op::{Op, OpKind, Reads};
use sig_base::{EqId, SigId, Signal};
use sig_clock::Clocks;
use sig_dd::{DdAnswer, Ref, Store};
use sig_kernel::Operand;
use std::alloc::{AllocError, Global};

/// What the operations of a kernel are made of: its signals and their clocks.
#[derive(Drop)]
pub(crate) struct Source<'a> {
    pub(crate) alloc: Global,
    pub(crate) signals: &'a [Signal],
    pub(crate) clocks: &'a Clocks,
}

impl Source<'_> {
    /// The guard that tells where a signal is present.
    pub(crate) fn guard(&self, x: SigId) -> Ref
        requires x { x.0 < length self.now.signals.now }
        requires guards { HaveGuards self.now.clocks.now (length self.now.signals.now) }
        ensures is { guard_of self.now.clocks.now x.0 ≡ Some result }
        ensures among { Contains self.now.clocks.now.guard result }
    {
        let clocks = self.clocks;
        let class = clocks.class_of[x.0 as usize];
        clocks.guard[class as usize]
    }

    /// The cluster of a signal.
    fn cluster(&self, x: SigId) -> u32
        ensures { result ≡ cluster_at self.now.signals.now x }
    {
        match self.signals.get(x.0 as usize) {
            Some(signal) => signal.cluster,
            None => 0,
        }
    }

    /// No signals.
    pub(crate) fn none(&self) -> Reads
        ensures { result ≡ [] }
    {
        Reads::from(Vec::new(self.alloc))
    }

    /// One signal.
    pub(crate) fn one(&self, x: SigId) -> Result<Reads, AllocError>
        ensures { IfOk result (λ reads. reads ≡ x ∷ []) }
    {
        let mut list = Vec::new(self.alloc);
        list.push(x)?;
        Ok(Reads::from(list))
    }

    /// The signals among operands.
    pub(crate) fn signals_of(&self, operands: &[Operand]) -> Result<Reads, AllocError>
        ensures { IfOk result (λ reads. reads ≡ signals_of operands.now) }
    {
        let list = operands
            .iter()
            .filter_map(|operand| signal_in(*operand))
            .collect(self.alloc)?;
        Ok(Reads { list })
    }

    /// The operation of an input.
    pub(crate) fn read(&self, x: SigId) -> Op
        requires x { x.0 < length self.now.signals.now }
        requires guards { HaveGuards self.now.clocks.now (length self.now.signals.now) }
        ensures { IsMade self.now.clocks.now (λ presence. read_of self.now.signals.now presence x) result }
    {
        Op {
            kind: OpKind::Read(x),
            guard: self.guard(x),
            writes: Some(x),
            reads: self.none(),
            eq: None,
            actor: self.cluster(x),
        }
    }

    /// An operation of an equation that writes a signal where this is present.
    pub(crate) fn writing(&self, number: EqId, kind: OpKind, y: SigId, reads: Reads) -> Op
        requires y { y.0 < length self.now.signals.now }
        requires guards { HaveGuards self.now.clocks.now (length self.now.signals.now) }
        ensures { IsMade self.now.clocks.now (λ presence. writing self.now.signals.now number kind (presence y) y reads) result }
    {
        self.taking(number, kind, self.guard(y), y, reads)
    }

    /// An operation of an equation that writes a signal under a guard.
    pub(crate) fn taking(
        &self,
        number: EqId,
        kind: OpKind,
        guard: Ref,
        y: SigId,
        reads: Reads,
    ) -> Op
        ensures { result ≡ record {
          kind = kind;
          guard = guard;
          writes = Some y;
          reads = reads;
          eq = Some number;
          actor = cluster_at self.now.signals.now y;
        } }
    {
        Op {
            kind,
            guard,
            writes: Some(y),
            reads,
            eq: Some(number),
            actor: self.cluster(y),
        }
    }

    /// The operation that stores into the memory of the delay that defines a signal.
    pub(crate) fn storing(&self, number: EqId, y: SigId, x: SigId, reads: Reads) -> Op
        requires x { x.0 < length self.now.signals.now }
        requires guards { HaveGuards self.now.clocks.now (length self.now.signals.now) }
        requires reads { reads ≡ x ∷ [] }
        ensures { IsMade self.now.clocks.now (λ presence. store_of self.now.signals.now presence number y x) result }
    {
        Op {
            kind: OpKind::Store(number),
            guard: self.guard(x),
            writes: None,
            reads,
            eq: Some(number),
            actor: self.cluster(y),
        }
    }
}

/// The function that is true where the first one is and the second one is not.
pub(crate) fn without(store: &mut Store, v: Ref, u: Ref) -> Result<Ref, DdAnswer>
    requires v { Holds store.old.nodes v }
    requires u { Holds store.old.nodes u }
    ensures store { IsStore store.new }
    ensures kept { Keeps store.old store.new }
    ensures value { IfOk result (IsRefOf store.new.nodes (without (test store.old.nodes v) (test store.old.nodes u))) }
    ensures spends { (vs : List ℕ) → Spans store.old.nodes v vs → Spans store.old.nodes u vs
        → Share 2 vs store.old store.new (refusal result) }
{
    let absent = store.negate(u)?;
    store.conj(v, absent)
}

/// The signal that an operand is.
fn signal_in(operand: Operand) -> Option<SigId>
    ensures { result ≡ signal_in operand }
{
    match operand {
        Operand::Sig(x) => Some(x),
        Operand::Const(_) => None,
    }
}
