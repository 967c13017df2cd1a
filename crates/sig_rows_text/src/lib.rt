//! Rows about texts, kernels and command lines. What the passes from a text on answer is written as text; `rows.rt` has the kinds
//! of rows. It stands on the passes up to sig_front, and on sig_words.
#![tactic(auto)]

mod calls;
mod expressions;
mod kernels;
mod labels;
mod made;
mod rows;
mod scopes;
mod syntax;
mod texts;
mod tokens;
mod words;

pub use rows::write_text_row;
