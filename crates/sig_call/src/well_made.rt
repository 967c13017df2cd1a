//! What holds of flat bodies of well-formed programs, as far as kinds, constants and definitions go.

ghost use Rattle.sig_call.specs.Prelude.{List, ProcessModel, FlatBody, IsFlatBody, IsWellFormed, IsTree, IsWellMade};
ghost use Rattle.sig_call.specs.Constants.{IsBounded};

/// A law: the flat body of a well-formed program has kinds by the table of kinds, constants only where
/// they may stand, and one definition of each signal that is no input.
pub fn flat_bodies_are_well_made()
    ensures { (program : List ProcessModel) (flat : FlatBody) → IsTree program → IsBounded program → IsWellFormed program
        → IsFlatBody program flat → IsWellMade flat }
{}
