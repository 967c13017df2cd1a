//! A small part of C, in which the steps of images are written, with what it means and how its text is read. It knows nothing of
//! programs.
#![tactic(auto)]

mod laws;

pub use laws::{
    an_example_is_read, files_are_read, helpers_answer, lines_have_tokens, texts_are_read,
    texts_have_one_unit, types_hold_values,
};
