//! The words of definitions, clock equations and bodies.

ghost use Rattle.std.specs.Prelude.{◌∷◌};
ghost use Rattle.sig_print.specs.Prelude.{map, [], codes, Mark, default_level, expression_of, right_side_of, equations_of};
ghost use Rattle.sig_print.specs.Canonical.{body_list_words, body_words, constant_words, constants_words, expression_words, further, left_words, names_words, right_words, separated};
ghost use Rattle.sig_print.specs.inner.Prints.{Adds};
ghost use Rattle.sig_print.specs.inner.Words.{mark, name, on_new_line};

use crate::answer::PrintAnswer;
use crate::expression::{constant, expression};
use crate::level::Level;
use crate::words::Words;
use sig_tree::{Body, Constant, Expr, Name, Right};

/// The words of names, with `,` between them.
pub fn names(words: &mut Words, names: &[Name]) -> Result<(), PrintAnswer>
    ensures { Adds words.old words.new result (names_words names.now) }
{
    match names.split_first() {
        None => Ok(()),
        Some((first, rest)) => {
            words.word(first.text.as_bytes())?;
            further_names(words, rest)
        }
    }
}

/// Names, each behind `,`.
fn further_names(words: &mut Words, names: &[Name]) -> Result<(), PrintAnswer>
    ensures { Adds words.old words.new result (further (λ n. name n ∷ []) (mark (codes ",")) names.now) }
{
    for name in names {
        words.word(b",")?;
        words.word(name.text.as_bytes())?;
    }
    Ok(())
}

/// A left side: a name, or names in parentheses.
fn left_side(words: &mut Words, left: &[Name]) -> Result<(), PrintAnswer>
    ensures { Adds words.old words.new result (left_words left.now) }
{
    if left.len() == 1 {
        names(words, left)
    } else {
        words.word(b"(")?;
        names(words, left)?;
        words.word(b")")
    }
}

/// Expressions with a mark between them.
fn expressions(words: &mut Words, separator: &[u8], all: &[Expr]) -> Result<(), PrintAnswer>
    ensures { Adds words.old words.new result
        (separated (expression_words default_level) (mark separator.now) (map expression_of all.now)) }
{
    match all.split_first() {
        None => Ok(()),
        Some((first, rest)) => {
            expression(words, Level::Default, first)?;
            further_expressions(words, separator, rest)
        }
    }
}

/// Expressions, each behind a mark.
fn further_expressions(words: &mut Words, separator: &[u8], all: &[Expr]) -> Result<(), PrintAnswer>
    ensures { Adds words.old words.new result
        (further (expression_words default_level) (mark separator.now) (map expression_of all.now)) }
{
    for e in all {
        words.word(separator)?;
        expression(words, Level::Default, e)?;
    }
    Ok(())
}

/// Constants in braces, where there are any.
fn constants(words: &mut Words, all: &[Constant]) -> Result<(), PrintAnswer>
    ensures { Adds words.old words.new result (constants_words all.now) }
{
    match all.split_first() {
        None => Ok(()),
        Some((first, rest)) => {
            words.word(b"{")?;
            constant(words, first)?;
            further_constants(words, rest)?;
            words.word(b"}")
        }
    }
}

/// Constants, each behind `,`.
fn further_constants(words: &mut Words, all: &[Constant]) -> Result<(), PrintAnswer>
    ensures { Adds words.old words.new result (further constant_words (mark (codes ",")) all.now) }
{
    for one in all {
        words.word(b",")?;
        constant(words, one)?;
    }
    Ok(())
}

/// A right side.
fn right_side(words: &mut Words, right: &Right) -> Result<(), PrintAnswer>
    ensures { Adds words.old words.new result (right_words (right_side_of right.now)) }
{
    match right {
        Right::Value(e) => expression(words, Level::Default, e),
        Right::Call(name, values, arguments) => {
            words.word(name.text.as_bytes())?;
            constants(words, values)?;
            words.word(b"(")?;
            expressions(words, b",", arguments)?;
            words.word(b")")
        }
    }
}

/// A body.
#[cycle(body)]
pub fn body(words: &mut Words, one: &Body) -> Result<(), PrintAnswer>
    ensures { Adds words.old words.new result (body_words (equations_of one.now)) }
{
    match one {
        Body::All(bodies) => {
            words.line(b"(|")?;
            all_bodies(words, bodies)?;
            words.line(b"|)")
        }
        Body::Def(left, right) => {
            left_side(words, left)?;
            words.word(b":=")?;
            right_side(words, right)
        }
        Body::Same(operands) => expressions(words, b"^=", operands),
    }
}

/// Bodies, with `|` between them.
#[cycle(body)]
fn all_bodies(words: &mut Words, all: &[Body]) -> Result<(), PrintAnswer>
    ensures { Adds words.old words.new result (body_list_words (map equations_of all.now)) }
{
    match all.split_first() {
        None => Ok(()),
        Some((first, rest)) => {
            body(words, first)?;
            for one in rest {
                words.line(b"|")?;
                body(words, one)?;
            }
            Ok(())
        }
    }
}
