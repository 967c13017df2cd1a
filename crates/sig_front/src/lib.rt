//! The passes from the text of a program on, joined: the first refusal of them, or what they give.
//! What a text is, and its first refusal, is defined in `specs/`, over the bytes. It stands on
//! sig_lex, sig_parse, sig_tree, sig_scope, sig_type, sig_call, sig_flat and sig_kernel.
#![tactic(auto)]

mod answer;
mod body;
mod kernel;
mod laws;
mod text;

pub use answer::FrontAnswer;
pub use body::flat;
pub use kernel::front;
pub use laws::{
    kernels_of_texts, one_flat_text, one_kernel_text, one_text, texts_have_a_verdict,
    traces_of_programs,
};
pub use text::tree;
