//! The C of accepted programs: what the text that is made of a program comes to. It stands on sig_image_command, whose laws say what
//! the image of a program does, and on sig_c_write, which says what the text of an image is.
#![tactic(auto)]

mod laws;

pub use laws::c_gives_the_trace_of_its_program;
