//! The words of constants and expressions.

ghost use Rattle.std.specs.Prelude.{◌≡◌, ◌++◌, ◌∷◌, if◌then◌else◌};
ghost use Rattle.sig_print.specs.Prelude.{[], codes, expression_of};
ghost use Rattle.sig_print.specs.Canonical.{constant_words, init_words, optional_init_words, expression_words, bare_words};
ghost use Rattle.sig_print.specs.inner.Levels.{level_number};
ghost use Rattle.sig_print.specs.inner.Prints.{Adds};
ghost use Rattle.sig_print.specs.inner.Words.{unary_text, binary_text, truth};

use crate::answer::PrintAnswer;
use crate::level::{Level, is_looser, left_level, level_of, operand_level, right_level};
use crate::words::Words;
use sig_tree::{BinOp, Constant, Expr, UnOp};

/// The word of an operator with one operand.
fn unary_word(op: UnOp) -> &'static [u8]
    ensures { result.now ≡ unary_text op }
{
    match op {
        UnOp::Not => b"not",
        UnOp::Neg => b"-",
        UnOp::When => b"when",
        UnOp::Clock => b"^",
    }
}

/// The word of an operator with two operands.
fn binary_word(op: BinOp) -> &'static [u8]
    ensures { result.now ≡ binary_text op }
{
    match op {
        BinOp::Default => b"default",
        BinOp::When => b"when",
        BinOp::Plus => b"^+",
        BinOp::Meet => b"^*",
        BinOp::Less => b"^-",
        BinOp::Or => b"or",
        BinOp::Xor => b"xor",
        BinOp::And => b"and",
        BinOp::Eq => b"=",
        BinOp::Ne => b"/=",
        BinOp::Lt => b"<",
        BinOp::Le => b"<=",
        BinOp::Gt => b">",
        BinOp::Ge => b">=",
        BinOp::Add => b"+",
        BinOp::Sub => b"-",
        BinOp::Mul => b"*",
        BinOp::Div => b"/",
        BinOp::Mod => b"modulo",
    }
}

/// The word of a truth.
fn truth_word(holds: bool) -> &'static [u8]
    ensures { result.now ≡ (truth holds).word.text }
{
    if holds { b"true" } else { b"false" }
}

/// The words of a constant.
#[tactic(auto, using(crate::proofs::Spaces::spaced_append))]
pub fn constant(words: &mut Words, constant: &Constant) -> Result<(), PrintAnswer>
    ensures { Adds words.old words.new result (constant_words constant.now) }
{
    match constant {
        Constant::Int(value, _) => {
            if *value < 0 {
                words.word(b"-")?;
            }
            words.number(value.unsigned_abs())
        }
        Constant::Bool(truth, _) => words.word(truth_word(*truth)),
        Constant::Param(name) => words.word(name.text.as_bytes()),
    }
}

/// `init` and the words of a constant.
#[tactic(auto, using(crate::proofs::Spaces::spaced_append))]
pub fn init(words: &mut Words, value: &Constant) -> Result<(), PrintAnswer>
    ensures { Adds words.old words.new result (init_words value.now) }
{
    words.word(b"init")?;
    constant(words, value)
}

/// The same, where there is an init.
#[tactic(auto, using(crate::proofs::Spaces::spaced_append))]
pub fn optional_init(words: &mut Words, value: &Option<Constant>) -> Result<(), PrintAnswer>
    ensures { Adds words.old words.new result (optional_init_words value.now) }
{
    match value {
        Some(value) => init(words, value),
        None => Ok(()),
    }
}

/// The words of an expression where one of a level is asked for.
#[cycle(expression)]
#[tactic(auto, using(crate::proofs::Spaces::spaced_append))]
pub fn expression(words: &mut Words, wanted: Level, e: &Expr) -> Result<(), PrintAnswer>
    ensures { Adds words.old words.new result (expression_words (level_number wanted) (expression_of e.now)) }
{
    if is_looser(level_of(e), wanted) {
        words.word(b"(")?;
        bare(words, e)?;
        words.word(b")")
    } else {
        bare(words, e)
    }
}

/// The words of an expression, without parentheses around it.
#[cycle(expression)]
#[tactic(auto, using(crate::proofs::Spaces::spaced_append))]
fn bare(words: &mut Words, e: &Expr) -> Result<(), PrintAnswer>
    ensures { Adds words.old words.new result (bare_words (expression_of e.now)) }
{
    match e {
        Expr::Name(name) => words.word(name.text.as_bytes()),
        Expr::Int(value, _) => words.number(*value),
        Expr::Bool(truth, _) => words.word(truth_word(*truth)),
        Expr::Unary(op, operand, _) => {
            words.word(unary_word(*op))?;
            expression(words, operand_level(*op), operand)
        }
        Expr::Binary(op, left, right, _) => {
            expression(words, left_level(*op), left)?;
            words.word(binary_word(*op))?;
            expression(words, right_level(*op), right)
        }
        Expr::Delay(operand, value, _) => {
            expression(words, Level::Delay, operand)?;
            words.word(b"$")?;
            words.word(b"1")?;
            optional_init(words, value)
        }
        Expr::Cell(operand, held, value, _) => {
            expression(words, Level::Mixed, operand)?;
            words.word(b"cell")?;
            expression(words, Level::Primary, held)?;
            init(words, value)
        }
    }
}
