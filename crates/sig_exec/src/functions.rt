//! The functions of the guards of an image.

ghost use Rattle.std.specs.Prelude.{◌≡◌, ◌+◌};
ghost use Rattle.sig_exec.specs.Prelude.{Holds, IfOk, ImageView, IsImage, Keeps, OnOk, Some, slice_get};
ghost use Rattle.sig_exec.specs.inner.Functions.{AreFunctions, AreFunctionsOfFirst, IsChosen};

use crate::images::{images_are_right, node_at};
use sig_dd::{DdAnswer, Ref, Store};
use sig_file::{Image, ImageNode};
use std::alloc::{AllocError, Global};

/// A store, and its references to the functions of the constants and the nodes of an image, by their numbers there.
#[derive(Drop)]
pub struct Functions {
    pub(crate) store: Store,
    pub(crate) refs: Vec<Ref>,
}

impl Functions {
    /// The functions of an image. Only memory can be wanting.
    pub(crate) fn new(alloc: Global, image: &Image) -> Result<Functions, AllocError>
        ensures { IfOk result (AreFunctions image.now) }
    {
        images_are_right(image);
        let mut functions = Functions::of_constants(alloc)?;
        for place in 0..image.nodes.len() {
            functions.add(image, place, node_at(image, place))?;
        }
        Ok(functions)
    }

    /// Those of the constants.
    fn of_constants(alloc: Global) -> Result<Functions, AllocError>
        ensures { IfOk result (λ functions. (image : ImageView) → IsImage image → AreFunctionsOfFirst image 0 functions) }
    {
        // As many nodes as there are numbers, so that only memory can be wanting.
        let Ok(store) = Store::new(alloc, u32::MAX) else {
            return Err(AllocError);
        };
        let mut refs = Vec::new(alloc);
        refs.push(store.constant(false))?;
        refs.push(store.constant(true))?;
        Ok(Functions { store, refs })
    }

    /// Adds that of the next node.
    fn add(&mut self, _image: &Image, _place: usize, node: ImageNode) -> Result<(), AllocError>
        requires right { IsImage _image.now }
        requires node { slice_get _image.now.nodes _place ≡ Some node }
        requires first { AreFunctionsOfFirst _image.now _place self.old }
        ensures { OnOk result (AreFunctionsOfFirst _image.now (_place + 1) self.new) }
    {
        let low = self.refs[node.low as usize];
        let high = self.refs[node.high as usize];
        let Ok(function) = choice(&mut self.store, node.variable, low, high) else {
            return Err(AllocError);
        };
        self.refs.push(function)?;
        Ok(())
    }
}

/// The function that is one function where a variable is false, and another one where it is true.
fn choice(store: &mut Store, variable: u32, low: Ref, high: Ref) -> Result<Ref, DdAnswer>
    requires low { Holds store.old.nodes low }
    requires high { Holds store.old.nodes high }
    ensures kept { Keeps store.old store.new }
    ensures value { IfOk result (IsChosen store.old.nodes store.new.nodes variable low high) }
{
    let condition = store.variable(variable)?;
    store.ite(condition, high, low)
}
