//! What holds of trees that were read from texts, and of flat bodies of well-formed programs.

ghost use Rattle.std.specs.Prelude.{◌+◌, ◌*◌, ◌^◌, ◌<◌, ◌≤◌};
ghost use Rattle.sig_call.specs.Prelude.{ℕ, List, map, length, IsDistinct, bytes_eq, ProcessModel, FlatBody, FlatEquation, IsFlatBody, IsText, IsWellFormed, IsTree, IsSized, flat_weights};
ghost use Rattle.sig_call.specs.Constants.{IsBounded};
ghost use Rattle.sig_call.specs.Places.{AtPlacesOfBody, IsWithin};

use sig_lex::{each_token, slices_in_order};

/// A law: a well-formed program has a flat body, since no call leads back to its caller.
pub fn some_flat_body()
    ensures { (program : List ProcessModel) → IsTree program → IsWellFormed program → (flat : FlatBody) × IsFlatBody program flat }
{}

/// A law: of the tree of a text, numbers are small, the integers among the constants have 64 bits and
/// each definition has a left side, and the equations, inputs and outputs of a process are no more than
/// the bytes of the text.
pub fn trees_of_texts()
    ensures tree { (text : List ℕ) (program : List ProcessModel) → IsText text program → IsTree program }
    ensures bounded { (text : List ℕ) (program : List ProcessModel) → IsText text program → IsBounded program }
    ensures sized { (text : List ℕ) (program : List ProcessModel) → IsText text program → IsSized (length text) program }
{
    each_token();
    slices_in_order();
}

/// A law: a flat body has at most as many equations as the equations, inputs and outputs of its
/// program's greatest process, for the first process and for each signal, where a clock equation
/// counts one for each pair of operands that stand beside each other.
pub fn size_of_flat_bodies()
    ensures weights { (program : List ProcessModel) (flat : FlatBody) (size : ℕ) → IsTree program → IsWellFormed program → IsSized size program
        → IsFlatBody program flat → flat_weights flat.equations ≤ size * (length flat.signals + 1) }
    ensures equations { (qs : List FlatEquation) → length qs ≤ flat_weights qs }
{}

/// A law: the signals of a flat body have names that differ. There are fewer than 10 ^ 64 of them, so
/// that the numbers of calls are told apart by the 64 digits that a number is written with at most.
pub fn names_of_flat_bodies()
    ensures differ { (text : List ℕ) (program : List ProcessModel) (flat : FlatBody) → IsText text program → IsWellFormed program → IsFlatBody program flat
        → length flat.signals < 10 ^ 64 → IsDistinct bytes_eq (map (λ signal. signal.name) flat.signals) }
{
    each_token();
    trees_of_texts();
}

/// A law: in the flat body of a text, the place of each signal, and of each name, constant and operator
/// of its equations, has a line and a column that are at most one more than the bytes of the text.
pub fn places_of_flat_bodies()
    ensures { (text : List ℕ) (program : List ProcessModel) (flat : FlatBody) → IsText text program → IsFlatBody program flat
        → AtPlacesOfBody (IsWithin (length text)) flat }
{
    slices_in_order();
}
