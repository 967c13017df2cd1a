//! Laws of refusals.

ghost use Rattle.std.specs.Prelude.{◌≡◌, ◌⊎◌};
ghost use Rattle.sig_parse.specs.Prelude.{List, Span, HasTree, ProcessModel, Leaf};
ghost use Rattle.sig_parse.specs.Exact.{IsFirstRefusal};
ghost use Rattle.sig_parse.specs.declared.parse_answer.ParseAnswer.{ParseAnswer};

/// A law: leaves have at most one first refusal, and none where they have a tree within both limits.
pub fn one_refusal()
    ensures one { (leaves : List Leaf) (end : Span) (a b : ParseAnswer) → IsFirstRefusal leaves end a → IsFirstRefusal leaves end b → a ≡ b }
    ensures apart { (leaves : List Leaf) (end : Span) (processes : List ProcessModel) (a : ParseAnswer) → HasTree leaves processes → IsFirstRefusal leaves end a → ⊥ }
{}

/// A law: leaves have a tree within both limits, or a first refusal.
pub fn some_verdict()
    ensures { (leaves : List Leaf) (end : Span) → ((processes : List ProcessModel) × HasTree leaves processes) ⊎ ((answer : ParseAnswer) × IsFirstRefusal leaves end answer) }
{}
