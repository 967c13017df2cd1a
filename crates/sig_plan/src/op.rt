//! Operations of a kernel.

ghost use Rattle.std.specs.Prelude.{◌≡◌, List};

use sig_base::{EqId, SigId};
use sig_dd::Ref;
use std::marker::Model;

/// What an operation does: it reads the next value of an input, computes a signal by its equation,
/// takes the left or the right signal of a `Default`, reads the memory of a `Delay`, or stores into
/// that of the `Delay` of this number.
#[derive(Clone, Copy, Debug, PartialEq, Eq)]
pub enum OpKind {
    Read(SigId),
    Compute,
    Left,
    Right,
    DelayRead,
    Store(EqId),
}

/// The signals that an operation reads. Contracts see the list.
#[derive(Debug, Drop)]
pub struct Reads {
    pub list: Vec<SigId>,
}

impl Model for Reads {
    ghost use Rattle.sig_plan.specs.Prelude.{List, SigId};

    ghost Value = { List SigId };

    ghost view = { λ reads. reads.list.items };
}

impl Reads {
    /// The signals.
    pub fn as_slice(&self) -> &[SigId]
        ensures { result.now ≡ self.now }
    {
        self.list.as_slice()
    }
}

impl From<Vec<SigId>> for Reads {
    ghost from_gives = { λ list reads. reads ≡ list.items };

    fn from(list: Vec<SigId>) -> Reads {
        Reads { list }
    }
}

/// An operation: what it does, the guard that tells for which proposals it is done, the signal that it
/// writes and those that it reads, its equation, and the cluster that does it.
#[derive(Debug, Drop)]
pub struct Op {
    pub kind: OpKind,
    pub guard: Ref,
    pub writes: Option<SigId>,
    pub reads: Reads,
    pub eq: Option<EqId>,
    pub actor: u32,
}
