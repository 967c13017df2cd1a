//! Accepted plans.

use crate::code::Code;
use crate::op::Op;
use crate::parts::LinkInfo;
use sig_base::OpId;
use sig_clock::Clocks;
use sig_dd::Store;
use sig_kernel::Kernel;
use std::marker::Model;

/// The plan of a kernel: its clocks, with their guards in a store, its operations and their order, the
/// links, and the code of each actor. It is accepted: the kernel is valid, has clocks and no cycle, and
/// all the rest is what follows from it.
#[derive(Drop)]
pub struct Plan {
    pub kernel: Kernel,
    pub clocks: Clocks,
    pub store: Store,
    pub ops: Vec<Op>,
    pub order: Vec<OpId>,
    pub links: Vec<LinkInfo>,
    pub codes: Vec<Code>,
}

impl Model for Plan {
    ghost use Rattle.sig_plan.specs.Plans.{PlanView, IsAccepted};

    ghost Value = { PlanView };

    ghost view = { λ p. record {
      kernel = p.kernel;
      clocks = p.clocks;
      store = p.store;
      ops = p.ops.items;
      order = p.order.items;
      links = p.links.items;
      codes = p.codes.items;
    } };

    ghost invariant = { λ p. IsAccepted (record {
      kernel = p.kernel;
      clocks = p.clocks;
      store = p.store;
      ops = p.ops.items;
      order = p.order.items;
      links = p.links.items;
      codes = p.codes.items;
    }) };
}
