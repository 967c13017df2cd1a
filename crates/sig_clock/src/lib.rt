//! The clock calculus: what the abstract reactions of a kernel are, and what they say of the presence
//! of its signals (`specs/`): roots, layers, pinned conditions and clock functions. It stands on
//! sig_kernel and on sig_dd, whose diagrams are the guards of clocks.
#![tactic(auto)]

mod answer;
mod classes;
mod clocks;
mod conditions;
mod laws;
mod sharing;

pub use answer::ClockBase;
pub use classes::same_clock;
pub use clocks::Clocks;
pub use conditions::condition_set;
pub use laws::{
    a_kernel_has_one_refusal, absent_conditions_make_no_difference,
    abstractions_have_the_statuses_of_values, instants_leave_abstract_reactions,
    proposals_determine_presences, signals_have_one_layer,
    signals_of_one_clock_are_present_together, silence_is_a_reaction,
};
pub use sharing::clocks_may_be_shared;
