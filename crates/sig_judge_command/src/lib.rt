//! The command `judge`: whether the trace that a file holds is one of the program that another file
//! holds. It stands on sig_front for the flat body, on sig_judge for the trace and the verdict, and on
//! sig_outcome for what every command promises.
#![tactic(auto)]

mod command;
mod laws;
mod load;
mod verdict;

pub use command::judge_command;
pub use laws::judges_have_one_outcome;
