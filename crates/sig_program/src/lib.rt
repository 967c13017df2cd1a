//! A program, from the name of its file to its plan: what each command begins with that runs or compiles one. Which
//! programs are accepted, and with which line the others are refused, is defined in `specs/Acceptance.antt`. It stands
//! on sig_front, sig_pace where paces are asked for, and sig_back, and on sig_outcome for what every command promises.
#![tactic(auto)]

mod compile;
mod laws;
mod load;
mod pacing;
mod taken;

pub use compile::plan_of;
pub use laws::{kernels_have_a_verdict, one_verdict, programs_have_a_verdict};
pub use load::load_plan;
