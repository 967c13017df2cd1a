//! The lexer of sigc: the bytes of a program as its list of tokens, or the first fault with its
//! place. What the tokens of a text are is defined in `specs/Tokens.antt`, apart from the scan. It
//! stands on sig_base.
#![tactic(auto)]

mod answer;
mod laws;
mod piece;
mod place;
mod run;
mod scan;
mod table;
mod token;

pub use answer::LexAnswer;
pub use laws::{
    each_token, one_reading, slices_in_order, some_reading, spelling, these_tokens, tokens_of_words,
};
pub use scan::lex;
pub use token::{Token, TokenKind};
