//! What holds of flat bodies.

ghost use Rattle.std.specs.Prelude.{◌≡◌, List};
ghost use Rattle.sig_tree.specs.Syntax.{ProcessModel};
ghost use Rattle.sig_tree.specs.FlatSyntax.{FlatBody};
ghost use Rattle.sig_tree.specs.FlatBody.{IsFlatBody};

/// A law: a program has at most one flat body.
pub fn one_flat_body()
    ensures { (program : List ProcessModel) (flat other : FlatBody) → IsFlatBody program flat → IsFlatBody program other → flat ≡ other }
{}
