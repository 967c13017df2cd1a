//! Runs of every accepted program on one thread: the operations of its plan are done one after another in
//! the compiled order, instant by instant. It stands on sig_machine, which does an instant.
#![tactic(auto)]

mod answer;
mod gates;
mod plans;
mod putting;
mod ready;
mod run;

pub use answer::RunAnswer;
pub use ready::ReadyRun;
pub use run::run_alone;
