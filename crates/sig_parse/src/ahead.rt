//! What begins with the next tokens, where one of them does not tell.

ghost use Rattle.std.specs.Prelude.{◌≡◌};
ghost use Rattle.sig_parse.specs.Prelude.{map, MatchBool, BeginsName};
ghost use Rattle.sig_parse.specs.inner.Ahead.{StandsAt, BeginsCall, BeginsDefinition};
ghost use Rattle.sig_parse.specs.inner.Keywords.{terminal_of};
ghost use Rattle.sig_parse.specs.Seen.{leaf_seen};

use crate::keyword::{Keyword, is_same};
use crate::leaf::{Leaf, Terminal};
use crate::parser::Parser;

/// Whether the leaf at an index is a name.
fn is_name(leaves: &[Leaf], index: usize) -> bool
    ensures { MatchBool result (StandsAt BeginsName index (map leaf_seen leaves.now)) (StandsAt BeginsName index (map leaf_seen leaves.now) → ⊥) }
{
    match leaves.get(index) {
        Some(leaf) => matches!(leaf.terminal, Terminal::Name(_)),
        None => false,
    }
}

/// Whether the leaf at an index is this keyword.
fn is_keyword(leaves: &[Leaf], index: usize, keyword: Keyword) -> bool
    ensures { MatchBool result (StandsAt (λ t. t ≡ terminal_of keyword) index (map leaf_seen leaves.now)) (StandsAt (λ t. t ≡ terminal_of keyword) index (map leaf_seen leaves.now) → ⊥) }
{
    match leaves.get(index) {
        Some(leaf) => match leaf.terminal {
            Terminal::Keyword(found) => is_same(found, keyword),
            _ => false,
        },
        None => false,
    }
}

/// Whether a call is next: a name with `(` or `{` behind it.
pub fn begins_call(parser: &Parser) -> bool
    ensures { MatchBool result (BeginsCall parser.now.leaves) (BeginsCall parser.now.leaves → ⊥) }
{
    let ahead = parser.ahead();
    is_name(ahead, 0)
        && (is_keyword(ahead, 1, Keyword::Open) || is_keyword(ahead, 1, Keyword::BraceOpen))
}

/// Whether the next tokens are those with which a definition alone begins: a name and `:=`, or `(`, a
/// name and `,`, or `(`, a name, `)` and `:=`.
pub fn begins_definition(parser: &Parser) -> bool
    ensures { MatchBool result (BeginsDefinition parser.now.leaves) (BeginsDefinition parser.now.leaves → ⊥) }
{
    let ahead = parser.ahead();
    if is_name(ahead, 0) {
        return is_keyword(ahead, 1, Keyword::Define);
    }
    is_keyword(ahead, 0, Keyword::Open)
        && is_name(ahead, 1)
        && (is_keyword(ahead, 2, Keyword::Comma)
            || is_keyword(ahead, 2, Keyword::Close) && is_keyword(ahead, 3, Keyword::Define))
}
