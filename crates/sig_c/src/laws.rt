//! Laws of small C.

ghost use Rattle.std.specs.Prelude.{◌≡◌, ◌<◌, ◌^◌, ℕ, suc, ℤ, List, codes, replicate, true};
ghost use Rattle.sig_base.specs.Traces.{has_64_bits};
ghost use Rattle.sig_c.specs.Answers.{Answers, MayBeGiven, result_of};
ghost use Rattle.sig_c.specs.Calls.{AreFit, begun, step_of};
ghost use Rattle.sig_c.specs.Helpers.{body_of, called};
ghost use Rattle.sig_c.specs.Example.{example_header, example_text, example_unit};
ghost use Rattle.sig_c.specs.File.{IsFile, blanks, file_text};
ghost use Rattle.sig_c.specs.Layout.{AreLaid, lines_text};
ghost use Rattle.sig_c.specs.Meaning.{Memory, Returned};
ghost use Rattle.sig_c.specs.Names.{AreNames, AreStatements, IsUnit, is_file_name};
ghost use Rattle.sig_c.specs.SmallC.{Header, Helper, Name, Statements, TranslationUnit};
ghost use Rattle.sig_c.specs.Texts.{IsUnitText};
ghost use Rattle.sig_c.specs.Tokens.{HasTokens};
ghost use Rattle.sig_c.specs.Written.{Scope, scope_of, statements_tokens, unit_tokens};

/// A law: a call of a helper with numbers of 64 bits, the divisor not 0, is never undefined; it writes the exact result and answers
/// 0 where that has 64 bits, and else answers 1.
pub fn helpers_answer()
    ensures { (helper : Helper) (v w : ℤ) → has_64_bits v ≡ true → has_64_bits w ≡ true → MayBeGiven helper w → Answers (called (body_of helper) v w) (result_of helper v w) }
{}

/// A law: P_init and a step leave in each field a value that its type holds, and a step answers an `int`.
pub fn types_hold_values()
    ensures first { (header : Header) (unit : TranslationUnit) (flows : List (List ℤ)) → AreFit header (begun header unit flows) }
    ensures next { (header : Header) (unit : TranslationUnit) (m after : Memory) (code : ℕ) → AreFit header m → step_of header unit m ≡ Returned code after
        → AreFit header after × (code < 2 ^ 15) }
{}

/// A law: statements that are laid out, each on a line behind one blank or more, have the tokens that they are written with.
pub fn lines_have_tokens()
    ensures { (scope : Scope) → AreNames scope → (blanks : ℕ) (statements : Statements) → AreLaid statements → AreStatements scope statements
        → HasTokens (lines_text (replicate (suc blanks) 32) scope statements) (statements_tokens scope statements) }
{}

/// A law: a unit that is laid out as a file, each statement of its step on a line, is read as that unit.
pub fn files_are_read()
    ensures { (head : List (List ℕ)) (include : Name) (header : Header) (unit : TranslationUnit) → IsFile head include unit → IsUnit header unit → AreLaid unit.step
        → IsUnitText include header (file_text head include header unit (lines_text blanks (scope_of header unit.variables) unit.step)) unit }
{}

/// A law: a text that has the tokens a unit is written with is read as that unit.
pub fn texts_are_read()
    ensures { (include : Name) (header : Header) (unit : TranslationUnit) (text : List ℕ) → is_file_name include ≡ true → IsUnit header unit → HasTokens text (unit_tokens include header unit)
        → IsUnitText include header text unit }
{}

/// A law: the text of the example, byte for byte, is that of its unit.
pub fn an_example_is_read()
    ensures { IsUnitText (codes "P.h") example_header example_text example_unit }
{}

/// A law: a text is that of one unit at most.
pub fn texts_have_one_unit()
    ensures { (include : Name) (header : Header) (text : List ℕ) (one other : TranslationUnit) → IsUnitText include header text one
        → IsUnitText include header text other → one ≡ other }
{}
