//! Laws of the definition of tokens.

ghost use Rattle.std.specs.Prelude.{◌≡◌, ◌≢◌, ◌↔◌, ◌+◌, ◌<◌, ◌⊎◌, ◌∷◌, ◌++◌};
ghost use Rattle.sig_lex.specs.Prelude.{ℕ, List, [], All, length, take, map, slice_index_or, AllByRecursion};
ghost use Rattle.sig_lex.specs.declared.token.Token.{Token};
ghost use Rattle.sig_lex.specs.declared.token.TokenKind.{TokenKind};
ghost use Rattle.sig_lex.specs.declared.token.TokenKind.TheVariants.{Last};
ghost use Rattle.sig_lex.specs.declared.answer.LexAnswer.{LexAnswer};
ghost use Rattle.sig_lex.specs.Slices.{StandsIn, InOrder, EndsOnce};
ghost use Rattle.sig_lex.specs.Lexemes.{Lexeme, text_of, lexemes, the_end, Spells, IsSpelled, EndsWord, IsSpaced, Spaced, IsPrintable, word_of, printed_text};
ghost use Rattle.sig_lex.specs.Tokens.{AreTokens, IsFirstFault, IsLexeme};

use crate::token::Token;

/// A law: a text has one list of tokens, or one first fault, and not both.
pub fn one_reading()
    ensures tokens { (text : List ℕ) (a b : List Token) → AreTokens text a → AreTokens text b → a ≡ b }
    ensures fault { (text : List ℕ) (a b : LexAnswer) → IsFirstFault text a → IsFirstFault text b → a ≡ b }
    ensures apart { (text : List ℕ) (tokens : List Token) (fault : LexAnswer) → AreTokens text tokens → IsFirstFault text fault → ⊥ }
{}

/// A law: a text has a list of tokens or a first fault, however long it is.
pub fn some_reading()
    ensures { (text : List ℕ) → ((tokens : List Token) × AreTokens text tokens) ⊎ ((fault : LexAnswer) × IsFirstFault text fault) }
{}

/// A law: the tokens of a text are slices of it in order, none of them empty but the last, which is
/// the only one of its kind and stands after the last byte.
pub fn slices_in_order()
    ensures order { (text : List ℕ) (tokens : List Token) → AreTokens text tokens → InOrder text 0 tokens }
    ensures last { (text : List ℕ) (tokens : List Token) → AreTokens text tokens → EndsOnce text tokens }
{}

/// A law: what is true of each token of a text, by its index, and of all of them as words.
pub fn each_token()
    ensures some { (text : List ℕ) (tokens : List Token) → AreTokens text tokens → 0 < length tokens }
    ensures slices { (text : List ℕ) (tokens : List Token) → AreTokens text tokens → All (StandsIn text) tokens }
    ensures last { (text : List ℕ) (tokens : List Token) → AreTokens text tokens →
        (k : ℕ) (d : Token) → k < length tokens → ((slice_index_or tokens k d).kind ≡ Last) ↔ (k + 1 ≡ length tokens) }
    ensures spelled { (text : List ℕ) (tokens : List Token) → AreTokens text tokens →
        All (λ t. t.kind ≢ Last → Spells t.kind (text_of text t)) tokens }
    ensures words { (text : List ℕ) (tokens : List Token) → AreTokens text tokens →
        (words : List Lexeme) × (lexemes text tokens ≡ words ++ the_end ∷ []) × AllByRecursion IsSpelled words }
{}

/// A law: what `each_token` says, of these bytes and these tokens.
pub fn these_tokens(bytes: &[u8], tokens: &[Token])
    requires { AreTokens bytes.now tokens.now }
    ensures some { 0 < length tokens.now }
    ensures slices { All (StandsIn bytes.now) tokens.now }
    ensures last { (k : ℕ) (d : Token) → k < length tokens.now → ((slice_index_or tokens.now k d).kind ≡ Last) ↔ (k + 1 ≡ length tokens.now) }
    ensures spelled { All (λ t. t.kind ≢ Last → Spells t.kind (text_of bytes.now t)) tokens.now }
{}

/// A law: bytes spell a token where they are one by themselves, and they are then one also in front
/// of a blank. The bytes of a token spell it.
pub fn spelling()
    ensures alone { (kind : TokenKind) (bytes : List ℕ) → Spells kind bytes → IsLexeme kind bytes (length bytes) }
    ensures before_blank { (kind : TokenKind) (bytes rest : List ℕ) → Spells kind bytes → EndsWord rest → IsLexeme kind (bytes ++ rest) (length bytes) }
    ensures front { (kind : TokenKind) (bytes : List ℕ) (n : ℕ) → IsLexeme kind bytes n → Spells kind (take n bytes) }
{}

/// A law: a text of words with blanks between them has these words as its tokens, and so has the text
/// that is printed of them.
pub fn tokens_of_words()
    ensures spaced { (text : List ℕ) (words : List Lexeme) → IsSpaced text words → AllByRecursion IsSpelled words →
        (tokens : List Token) × AreTokens text tokens × (lexemes text tokens ≡ words ++ the_end ∷ []) }
    ensures printed { (items : List Spaced) → AllByRecursion IsPrintable items →
        (tokens : List Token) × AreTokens (printed_text items) tokens × (lexemes (printed_text items) tokens ≡ map word_of items ++ the_end ∷ []) }
{}
