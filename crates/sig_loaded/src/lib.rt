//! The files of a run, loaded: the plan of the program and the flows of its inputs; and how a run ends, as its line and
//! its status say it. What a run comes to is defined in `specs/Runs.antt`, for each command that makes one. It stands on
//! sig_program, sig_flow and sig_outcome.
#![tactic(auto)]

mod load;
mod report;
mod status;

pub use load::{Loaded, flows_of, hold_too_many, load as load_run, refused_flows};
pub use report::{say_end, say_place};
pub use status::end_status;
