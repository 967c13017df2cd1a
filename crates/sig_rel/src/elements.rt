//! What is put into the list of a triangular kernel.

ghost use Rattle.std.specs.Prelude.{◌≡◌, ◌++◌, ◌∷◌, [], IfOk, OnOk};
ghost use Rattle.sig_rel.specs.Triangles.{classes_among};

use std::alloc::{AllocError, Global};

/// What stands in the list of a triangular kernel: the presence of a clock class, which is named by its
/// least signal, or the truth of a boolean, by its signal.
#[derive(Clone, Copy, PartialEq, Eq)]
pub enum Element {
    Presence(u32),
    Truth(u32),
}

/// An element that may be put next, and the number of the equation that gives it, if one does.
#[derive(Clone, Copy)]
pub(crate) struct Step {
    pub(crate) element: Element,
    pub(crate) equation: Option<u32>,
}

/// The classes of a list, in order.
pub(crate) fn classes_of(alloc: Global, list: &[Element]) -> Result<Vec<u32>, AllocError>
    ensures { IfOk result (λ classes. classes.items ≡ classes_among list.now) }
{
    let mut classes = Vec::new(alloc);
    for element in list {
        push_class(&mut classes, *element)?;
    }
    Ok(classes)
}

/// Adds the class that an element is, if it is one.
fn push_class(classes: &mut Vec<u32>, element: Element) -> Result<(), AllocError>
    ensures { OnOk result (classes.new.items ≡ classes.old.items ++ classes_among (element ∷ [])) }
{
    match element {
        Element::Presence(class) => classes.push(class)?,
        Element::Truth(_) => {}
    }
    Ok(())
}
