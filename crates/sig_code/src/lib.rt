//! The step code of each actor, which makes the plan of a kernel whole, and the text of a plan's code. It
//! stands on sig_plan, which says what these are, and on sig_dd, which tells whether one guard implies
//! another.
#![tactic(auto)]

mod answer;
mod coding;
mod laws;
mod routes;
mod slots;
mod steps;
mod text;

pub use answer::CodeAnswer;
pub use coding::code;
pub use laws::a_kernel_has_one_code_text;
pub use text::code_text;
