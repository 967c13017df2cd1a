//! The operations of a plan as instructions over numbered cells, each under its guard, and an instant of them, which sig_cells
//! does. It stands on sig_doing_laws, which says what that makes of an instant. The steps of one actor are done by instructions of
//! the same form.
#![tactic(auto)]

mod acting;
mod actor;
mod lowered;
mod lowering;
mod machine;
mod opening;
mod outcomes;
mod own;
mod plans;
mod react;
mod row;
mod sources;
mod steps;
mod truths;
mod works;

pub use actor::ActorMachine;
pub use lowered::Lowered;
pub use lowering::lower;
pub use machine::Machine;
