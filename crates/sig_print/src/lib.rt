//! The printer: the canonical text of a program. It stands on sig_tree and sig_lex.
#![tactic(auto)]

mod answer;
mod equation;
mod expression;
mod laws;
mod level;
mod process;
mod words;

pub use answer::PrintAnswer;
pub use laws::{
    canonical_leaves, no_other_program, round_trip, words_are_spelled, words_are_tokens,
};
pub use process::print;
