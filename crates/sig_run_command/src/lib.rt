//! The command `run`: a program and its flows are loaded by sig_loaded, and sig_work runs the plan's clusters on worker
//! threads, or sig_alone all of its operations on this thread. What the command comes to is defined there, in
//! `specs/Runs.antt`. It stands on sig_outcome for what every command promises.
#![tactic(auto)]

mod command;
mod laws;
mod paying;
mod run;

pub use command::run_command;
pub use laws::{good_runs_end, runs_have_one_outcome};
pub use run::run_plan;
