//! The relation of a kernel.

ghost use Rattle.std.specs.Prelude.{◌≡◌};

use sig_dd::Ref;
use std::marker::Model;

/// The abstract reactions of a kernel as one diagram over unknowns: for each signal the unknown of
/// its presence, which the signals of one clock class share, and that of its truth where it is a
/// boolean. The unknowns are numbered from the count of the kernel's conditions on.
#[derive(Drop)]
pub struct Relation {
    pub whole: Ref,
    pub present: Vec<u32>,
    pub truth: Vec<Option<u32>>,
}

impl Model for Relation {
    ghost use Rattle.sig_rel.specs.Relations.{RelationView};

    ghost Value = { RelationView };

    ghost view = { λ r. record { whole = r.whole; present = r.present.items; truth = r.truth.items } };
}
