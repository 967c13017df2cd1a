//! What a run of a plan is (`specs/`): the turn of one actor, the interleavings of all actors, the
//! reference on which they run, and the cause of the end. It stands on sig_plan.
#![tactic(auto)]

mod event;

pub use event::Event;
