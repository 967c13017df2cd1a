//! All actors of a plan on one thread, in any interleaving. It stands on sig_step.
#![tactic(auto)]

mod acting;
mod answer;
mod cause;
mod event;
mod finish;
mod laws;
mod lists;
mod looking;
mod making;
mod plans;
mod serve;
mod state;
mod telling;

pub use answer::{ActorState, CoreAnswer};
pub use laws::{cores_keep_to_the_plan, runs_keep_to_the_plan};
pub use sig_model::Event;
pub use state::Core;
