//! What holds of the rules on programs.

ghost use Rattle.std.specs.Prelude.{◌≡◌, ◌⊎◌, List};
ghost use Rattle.sig_tree.specs.Syntax.{ProcessModel};
ghost use Rattle.sig_tree.specs.Candidates.{Offence};
ghost use Rattle.sig_tree.specs.WellFormed.{IsWellFormed, IsFirstOffence};

/// A law: a program has at most one first offence, and a well-formed program has none.
pub fn one_offence()
    ensures one { (program : List ProcessModel) (a b : Offence) → IsFirstOffence program a → IsFirstOffence program b → a ≡ b }
    ensures apart { (program : List ProcessModel) (a : Offence) → IsWellFormed program → IsFirstOffence program a → ⊥ }
{}

/// A law: every program is well formed, or has a first offence.
pub fn some_offence()
    ensures { (program : List ProcessModel) → IsWellFormed program ⊎ ((offence : Offence) × IsFirstOffence program offence) }
{}
