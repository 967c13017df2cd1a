//! References to functions, and nodes.

ghost use Rattle.std.specs.Prelude.{if◌then◌else◌, ◌≡◌, ◌⊎◌, ◌↔◌, ◌+◌, ◌^◌, ◌<◌, IsTrue};

/// A reference to a function of one store. Two references of one store are equal exactly where
/// their functions are.
// 0 is the constant false, 1 the constant true, and i + 2 the node at the place i: so a node
// takes 12 bytes.
#[derive(Clone, Copy, Debug, PartialEq, Eq, PartialOrd, Ord, Hash)]
pub struct Ref {
    pub(crate) number: u32,
}

/// A node: a variable, and the functions where it is false and where it is true.
#[derive(Clone, Copy, Debug, PartialEq, Eq, Hash)]
pub struct Node {
    pub variable: u32,
    pub low: Ref,
    pub high: Ref,
}

// A million nodes take 12 MB beside the table of their set.
const _: () = prove!(size_of::<Node>() == 12);

impl Ref {
    pub(crate) const FALSE: Ref = Ref { number: 0 };

    pub(crate) const TRUE: Ref = Ref { number: 1 };

    /// The constant function of this truth.
    pub(crate) fn constant(truth: bool) -> Ref
        ensures { result.number ≡ (if truth then 1 else 0) }
    {
        if truth { Ref::TRUE } else { Ref::FALSE }
    }

    /// Whether the function is a constant.
    pub(crate) fn is_constant(self) -> bool
        ensures { IsTrue result ↔ self.number < 2 }
    {
        self.number < 2
    }

    /// The reference, but another one where it is this one.
    pub(crate) fn unless(self, this: Ref, other: Ref) -> Ref
        ensures { ((self ≡ this) × (result ≡ other)) ⊎ (result ≡ self) }
    {
        if self == this { other } else { self }
    }

    /// The reference to the node at a place.
    pub(crate) fn to_node(place: usize) -> Ref
        requires { place + 2 < 2 ^ 32 }
        ensures { result.number ≡ place + 2 }
    {
        Ref {
            number: place as u32 + 2,
        }
    }
}

impl Node {
    /// The function where the variable has the truth.
    pub(crate) fn child(&self, truth: bool) -> Ref
        ensures { result ≡ (if truth then self.now.high else self.now.low) }
    {
        if truth { self.high } else { self.low }
    }
}
