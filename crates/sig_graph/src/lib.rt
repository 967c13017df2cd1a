//! The compiled order of a kernel's operations: which operations precede which, and an order that
//! keeps to that, or a cycle. It stands on sig_plan, which says what both are.
#![tactic(auto)]

mod answer;
mod counts;
mod cycles;
mod graph;
mod marks;
mod numbers;
mod orders;
mod successors;
mod taking;

pub use answer::GraphAnswer;
pub use orders::order;
