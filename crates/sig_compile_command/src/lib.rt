//! The commands of the compiler, from the name of a program file to a status: `check`, `tree` and `code`, which
//! compile a program by sig_program and write what is made of its plan by sig_hier and sig_code, and `print`, which
//! writes its canonical text by sig_print. It stands on sig_outcome for what every command promises.
#![tactic(auto)]

mod check;
mod laws;
mod print;
mod product;

pub use check::compile_command;
pub use laws::{good_programs_compile, good_texts_print, programs_have_an_outcome};
pub use print::print_command;
pub use product::Product;
