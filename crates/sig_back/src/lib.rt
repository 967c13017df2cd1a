//! From a valid kernel to its plan, or to the first rule of acceptance that it does not meet: the clocks,
//! the operations, their order, the parts and the codes, joined. It stands on sig_solve, sig_plan,
//! sig_graph, sig_part and sig_code; sig_plan says which kernels are accepted, and sig_meaning_laws what they do.
#![tactic(auto)]

mod answer;
mod fault;
mod passes;
mod reacting;
mod telling;

pub use answer::BackAnswer;
pub use fault::{BackFault, BackKind};
pub use passes::back;
