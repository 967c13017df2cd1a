//! How the operations of a kernel are split among actors: what each actor imports, and the links between
//! them. It stands on sig_plan, which says what these are, and on sig_dd, which tells the conditions that
//! a guard needs.
#![tactic(auto)]

mod answer;
mod closing;
mod imports;
mod links;
mod marks;
mod needs;
mod splitting;
mod uses;

pub use answer::PartAnswer;
pub use splitting::split;
