//! The clocks of a kernel, or the first reason why it has none. It stands on sig_clock, whose
//! definitions these are, on sig_rel, whose system writes the clocks of a kernel as functions of a few
//! variables, and on sig_dd.
#![tactic(auto)]

mod answer;
mod asked;
mod awaiting;
mod classes;
mod frame;
mod general;
mod guards;
mod images;
mod known;
mod laws;
mod layers;
mod needs;
mod order;
mod pinned;
mod roots;
mod rounds;
mod solving;
mod triangular;

pub use answer::ClockAnswer;
pub use laws::walks_ask_no_absent_condition;
pub use solving::solve;
