//! The system of a kernel's clocks.

ghost use Rattle.std.specs.Prelude.{◌≡◌};

use sig_base::SigId;
use sig_dd::Ref;
use std::marker::Model;

/// The clocks of a kernel, substituted into one another: for each signal its presence, and its
/// truth where it is present, as functions of `variables` variables, numbered from `first` on. Variable
/// `proposals[i]` is the proposal of `conditions[i]`: its truth, where it is present. The other
/// variables stand for what nothing determines. `residue` is what the variables have to meet, and
/// `speaks` is true where some signal is present.
#[derive(Drop)]
pub struct System {
    pub present: Vec<Ref>,
    pub truth: Vec<Ref>,
    pub residue: Ref,
    pub speaks: Ref,
    pub conditions: Vec<SigId>,
    pub proposals: Vec<u32>,
    pub first: u32,
    pub variables: u32,
}

impl Model for System {
    ghost use Rattle.sig_rel.specs.Systems.{SystemView};

    ghost Value = { SystemView };

    ghost view = { λ s. record { present = s.present.items; truth = s.truth.items; residue = s.residue; speaks = s.speaks; conditions = s.conditions.items; proposals = s.proposals.items; first = s.first; variables = s.variables } };
}
