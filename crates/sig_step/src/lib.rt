//! One actor of a plan: its state, and the step that it does next over any link ends. What that step is,
//! sig_model says. It stands on sig_machine, sig_schedule_laws and sig_flow.
#![tactic(auto)]

mod answer;
mod cause;
mod ends;
mod going_on;
mod guards;
mod making;
mod moving;
mod operating;
mod plans;
mod putting;
mod receiving;
mod rows;
mod sending;
mod sharing;
mod state;
mod step;

pub use answer::{Acted, StepAnswer};
pub use ends::Ends;
pub use plans::{actors_in, ops_of, order_of, plans_are_accepted};
pub use sharing::states_may_be_moved;
pub use state::ClusterState;
