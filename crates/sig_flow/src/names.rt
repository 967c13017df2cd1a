//! Inputs, found by their names.

ghost use Rattle.std.specs.Prelude.{◌≡◌};
ghost use Rattle.sig_flow.specs.Prelude.{bytes_eq, map, None, IfNone, IfOk, IfSome, IsDistinct};
ghost use Rattle.sig_flow.specs.Flows.{kind_named};
ghost use Rattle.sig_flow.specs.Inputs.{IsInput};

use crate::named::input_named;
use sig_base::Signal;
use std::alloc::{AllocError, Global};
use std::collections::BTreeMap;
use std::marker::Model;

/// So few inputs are looked at one by one, which is quicker than by the map.
const FEW: usize = 6;

/// Inputs with the place of each name. Contracts see the inputs.
#[derive(Drop)]
pub(crate) struct Names<'a> {
    inputs: &'a [Signal],
    places: BTreeMap<&'a [u8], usize>,
}

impl<'a> Model for Names<'a> {
    ghost use Rattle.sig_flow.specs.Prelude.{List, ℕ, length, nat_cmp, slice_cmp, Signal};
    ghost use Rattle.std.specs.BTreeMap as tree;
    ghost use Rattle.sig_flow.specs.Inputs.{ArePlaces};

    ghost Value = { List Signal };

    ghost view = { λ names. names.inputs.now };

    ghost invariant = { λ names. ArePlaces names.inputs.now (length names.inputs.now) (λ (q : List ℕ). tree.get_by (λ k. slice_cmp nat_cmp q k.now) names.places) };
}

impl<'a> Names<'a> {
    /// The inputs, whose names differ.
    pub(crate) fn of(alloc: Global, inputs: &'a [Signal]) -> Result<Names<'a>, AllocError>
        requires { IsDistinct bytes_eq (map (λ input. input.name) inputs.now) }
        ensures { IfOk result (λ names. names ≡ inputs.now) }
    {
        let mut places: BTreeMap<&'a [u8], usize> = BTreeMap::new(alloc);
        for (i, input) in inputs.iter().enumerate() {
            places.insert(input.name.as_bytes(), i)?;
        }
        Ok(Names { inputs, places })
    }

    /// The input of this name, by its index.
    pub(crate) fn find(&self, name: &[u8]) -> Option<usize>
        ensures found { IfSome result (λ i. IsInput self.now name.now i) }
        ensures absent { IfNone result (kind_named self.now name.now ≡ None) }
    {
        if self.inputs.len() <= FEW {
            return input_named(self.inputs, name);
        }
        self.places.get(name).copied()
    }
}
