//! The levels and the operators of expressions.

ghost use Rattle.std.specs.Prelude.{◌≡◌};
ghost use Rattle.sig_parse.specs.Prelude.{IfSome, IfNone, MatchOption, UnOp, unary_level, operand_level, right_level, unary_terminal};
ghost use Rattle.sig_parse.specs.declared.operator.Infix.{Infix};
ghost use Rattle.sig_parse.specs.inner.Keywords.{terminal_of};
ghost use Rattle.sig_parse.specs.inner.Operators.{level_number, first_level, infix_terminal, infix_level, infix_left, IsTighter};

use crate::keyword::Keyword;
use sig_tree::{BinOp, UnOp};

/// The levels of expressions, from the loosest to the tightest.
#[derive(Clone, Copy, PartialEq, Eq)]
pub enum Level {
    Default,
    Mixed,
    Clock,
    Or,
    And,
    Not,
    Relation,
    Sum,
    Product,
    Minus,
    Delay,
    Primary,
}

/// An operator that stands behind its left operand.
#[derive(Clone, Copy)]
pub enum Infix {
    Binary(BinOp),
    Cell,
    Delay,
}

/// The next tighter level.
pub fn tighter(level: Level) -> Option<Level>
    ensures { MatchOption result (level ≡ Level.Primary) (λ next. IsTighter next level) }
{
    match level {
        Level::Default => Some(Level::Mixed),
        Level::Mixed => Some(Level::Clock),
        Level::Clock => Some(Level::Or),
        Level::Or => Some(Level::And),
        Level::And => Some(Level::Not),
        Level::Not => Some(Level::Relation),
        Level::Relation => Some(Level::Sum),
        Level::Sum => Some(Level::Product),
        Level::Product => Some(Level::Minus),
        Level::Minus => Some(Level::Delay),
        Level::Delay => Some(Level::Primary),
        Level::Primary => None,
    }
}

/// The level of the operand of an operator that stands before it.
pub fn operand_level(op: UnOp) -> Level
    ensures { level_number result ≡ operand_level op }
{
    match op {
        UnOp::When => Level::Clock,
        UnOp::Not => Level::Not,
        UnOp::Neg => Level::Minus,
        UnOp::Clock => Level::Primary,
    }
}

/// The level of the right operand of an operator that stands between two.
pub fn right_level(op: BinOp) -> Level
    ensures { level_number result ≡ right_level op }
{
    match op {
        BinOp::Default => Level::Mixed,
        BinOp::When => Level::Clock,
        BinOp::Plus | BinOp::Meet | BinOp::Less => Level::Or,
        BinOp::Or | BinOp::Xor => Level::And,
        BinOp::And => Level::Not,
        BinOp::Eq | BinOp::Ne | BinOp::Lt | BinOp::Le | BinOp::Gt | BinOp::Ge => Level::Sum,
        BinOp::Add | BinOp::Sub => Level::Product,
        BinOp::Mul | BinOp::Div | BinOp::Mod => Level::Minus,
    }
}

/// The operator of this level that a keyword is before an operand.
pub fn prefix_of(level: Level, keyword: Keyword) -> Option<UnOp>
    ensures terminal { IfSome result (λ op. unary_terminal op ≡ terminal_of keyword) }
    ensures level { IfSome result (λ op. unary_level op ≡ level_number level) }
    ensures none { IfNone result ((op : UnOp) → unary_level op ≡ level_number level → unary_terminal op ≡ terminal_of keyword → ⊥) }
{
    match (level, keyword) {
        (Level::Mixed, Keyword::When) => Some(UnOp::When),
        (Level::Not, Keyword::Not) => Some(UnOp::Not),
        (Level::Minus, Keyword::Minus) => Some(UnOp::Neg),
        (Level::Primary, Keyword::Clock) => Some(UnOp::Clock),
        _ => None,
    }
}

/// The operator that a keyword is behind an operand.
pub fn infix_of(keyword: Keyword) -> Option<Infix>
    ensures { MatchOption result ((op : Infix) → infix_terminal op ≡ terminal_of keyword → ⊥) (λ op. infix_terminal op ≡ terminal_of keyword) }
{
    match keyword {
        Keyword::Default => Some(Infix::Binary(BinOp::Default)),
        Keyword::When => Some(Infix::Binary(BinOp::When)),
        Keyword::Cell => Some(Infix::Cell),
        Keyword::ClockPlus => Some(Infix::Binary(BinOp::Plus)),
        Keyword::ClockMeet => Some(Infix::Binary(BinOp::Meet)),
        Keyword::ClockLess => Some(Infix::Binary(BinOp::Less)),
        Keyword::Or => Some(Infix::Binary(BinOp::Or)),
        Keyword::Xor => Some(Infix::Binary(BinOp::Xor)),
        Keyword::And => Some(Infix::Binary(BinOp::And)),
        Keyword::Equal => Some(Infix::Binary(BinOp::Eq)),
        Keyword::NotEqual => Some(Infix::Binary(BinOp::Ne)),
        Keyword::Less => Some(Infix::Binary(BinOp::Lt)),
        Keyword::LessEqual => Some(Infix::Binary(BinOp::Le)),
        Keyword::Greater => Some(Infix::Binary(BinOp::Gt)),
        Keyword::GreaterEqual => Some(Infix::Binary(BinOp::Ge)),
        Keyword::Plus => Some(Infix::Binary(BinOp::Add)),
        Keyword::Minus => Some(Infix::Binary(BinOp::Sub)),
        Keyword::Times => Some(Infix::Binary(BinOp::Mul)),
        Keyword::Divide => Some(Infix::Binary(BinOp::Div)),
        Keyword::Modulo => Some(Infix::Binary(BinOp::Mod)),
        Keyword::Dollar => Some(Infix::Delay),
        _ => None,
    }
}

/// The level of an operator that stands behind its left operand.
pub fn level_of(op: Infix) -> Level
    ensures own { level_number result ≡ infix_level op }
    ensures left { first_level result ≡ infix_left op }
{
    match op {
        Infix::Binary(op) => match op {
            BinOp::Default => Level::Default,
            BinOp::When => Level::Mixed,
            BinOp::Plus | BinOp::Meet | BinOp::Less => Level::Clock,
            BinOp::Or | BinOp::Xor => Level::Or,
            BinOp::And => Level::And,
            BinOp::Eq | BinOp::Ne | BinOp::Lt | BinOp::Le | BinOp::Gt | BinOp::Ge => {
                Level::Relation
            }
            BinOp::Add | BinOp::Sub => Level::Sum,
            BinOp::Mul | BinOp::Div | BinOp::Mod => Level::Product,
        },
        Infix::Cell => Level::Mixed,
        Infix::Delay => Level::Delay,
    }
}

/// How tight a level is.
pub fn tightness(level: Level) -> u32
    ensures { result ≡ level_number level }
{
    match level {
        Level::Default => 0,
        Level::Mixed => 1,
        Level::Clock => 2,
        Level::Or => 3,
        Level::And => 4,
        Level::Not => 5,
        Level::Relation => 6,
        Level::Sum => 7,
        Level::Product => 8,
        Level::Minus => 9,
        Level::Delay => 10,
        Level::Primary => 11,
    }
}
