//! What the names of signals are, in the flat body of a text.

ghost use Rattle.std.specs.Prelude.{◌≤◌};
ghost use Rattle.sig_call.specs.Prelude.{ℕ, List, length, AllByRecursion, PROGRAM_BYTES, SIGNALS, ProcessModel, FlatBody, IsFlatBody, IsText, IsWellFormed, IsSignalName, NamesOperators};

use crate::laws::trees_of_texts;
use sig_lex::{each_token, slices_in_order};

/// A law: in the flat body of a text within the limits, each signal's name has 1 to 1,048,576 bytes, all
/// of printable ASCII without blanks, and so has the name of an operator's intermediate, which is the
/// prefix of its copy and its place.
pub fn signals_have_names()
    ensures signals { (text : List ℕ) (program : List ProcessModel) (flat : FlatBody) → IsText text program → IsWellFormed program → IsFlatBody program flat
        → length text ≤ PROGRAM_BYTES → length flat.signals ≤ SIGNALS → AllByRecursion (λ signal. IsSignalName signal.name) flat.signals }
    ensures operators { (text : List ℕ) (program : List ProcessModel) (flat : FlatBody) → IsText text program → IsWellFormed program → IsFlatBody program flat
        → length text ≤ PROGRAM_BYTES → length flat.signals ≤ SIGNALS → AllByRecursion NamesOperators flat.equations }
{
    each_token();
    slices_in_order();
    trees_of_texts();
}
