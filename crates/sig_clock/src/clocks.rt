//! The clocks of a kernel.

ghost use Rattle.std.specs.Prelude.{◌≡◌};

use sig_base::SigId;
use sig_dd::Ref;
use std::marker::Model;

/// The clocks of a kernel. Signals with one clock function are one class: class 0 is that of the
/// roots, and the others are numbered from 1 by layer, then by least signal. Each class has a guard,
/// the function of the conditions that tells where its signals are present, and a layer. Variable v
/// of a guard stands for `conditions[v]`.
#[derive(Drop)]
pub struct Clocks {
    pub class_of: Vec<u32>,
    pub guard: Vec<Ref>,
    pub layer: Vec<u32>,
    pub conditions: Vec<SigId>,
}

impl Model for Clocks {
    ghost use Rattle.sig_clock.specs.Clocks.{ClocksView};

    ghost Value = { ClocksView };

    ghost view = { λ c. record {
      class_of = c.class_of.items;
      guard = c.guard.items;
      layer = c.layer.items;
      conditions = c.conditions.items;
    } };
}
