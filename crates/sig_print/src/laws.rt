//! Laws of the canonical text.

ghost use Rattle.std.specs.Prelude.{◌≡◌, ◌∷◌, ◌++◌};
ghost use Rattle.sig_print.specs.Prelude.{ℕ, List, [], map, AllByRecursion, flat_map, Token, IsPrintable, lexemes, the_end, word_of, AreTokens, HasTree, IsText, leaves_of, ProcessModel, unplaced, unplaced_leaves};
ghost use Rattle.sig_print.specs.Canonical.{canonical_text, process_words};

use sig_lex::{each_token, tokens_of_words};
use sig_tree::one_program;

/// A law: where a text is that of a program, each canonical word of the program is a token by itself.
pub fn words_are_spelled()
    ensures { (text : List ℕ) (processes : List ProcessModel) → IsText text processes →
        AllByRecursion IsPrintable (flat_map process_words processes) }
{
    each_token();
}

/// A law: the tokens of the canonical text of such a program are its canonical words.
pub fn words_are_tokens()
    ensures { (text : List ℕ) (processes : List ProcessModel) → IsText text processes →
        (tokens : List Token) × AreTokens (canonical_text processes) tokens
        × (lexemes (canonical_text processes) tokens ≡ map word_of (flat_map process_words processes) ++ the_end ∷ []) }
{
    words_are_spelled();
    tokens_of_words();
}

/// A law: the leaves of the canonical text of such a program, their places left out, are those of
/// the program, its places left out.
pub fn canonical_leaves()
    ensures { (text : List ℕ) (processes : List ProcessModel) → IsText text processes →
        (tokens : List Token) × AreTokens (canonical_text processes) tokens
        × HasTree (unplaced_leaves (leaves_of (canonical_text processes) tokens)) (unplaced processes) }
{
    words_are_tokens();
}

/// A law: the canonical text of such a program is the text of the same program, places aside.
pub fn round_trip()
    ensures { (text : List ℕ) (processes : List ProcessModel) → IsText text processes →
        (others : List ProcessModel) × IsText (canonical_text processes) others × (unplaced others ≡ unplaced processes) }
{
    canonical_leaves();
}

/// A law: the canonical text of such a program is the text of no other program, places aside.
pub fn no_other_program()
    ensures { (text : List ℕ) (processes others : List ProcessModel) → IsText text processes →
        IsText (canonical_text processes) others → unplaced others ≡ unplaced processes }
{
    round_trip();
    one_program();
}
