//! The parser: the tree of a program from the tokens of its text, by one pass from the left with one
//! function for each part of the grammar. It stands on `sig_base`, `sig_lex` and `sig_tree`.
#![tactic(auto)]

mod ahead;
mod bodies;
mod constant;
mod declaration;
mod expression;
mod keyword;
mod laws;
mod leaf;
mod natural;
mod operator;
mod parse_answer;
mod parser;
mod pragma;
mod process;
mod program;
mod refusal;
mod separated;
mod sides;

pub use laws::{one_refusal, some_verdict};
pub use parse_answer::ParseAnswer;
pub use program::{parse, parse_owned};
