//! What every schedule of the actors of an accepted plan has to do with the extended reference: all states
//! keep to it, events go on until all actors have ended, and then the longest trace is committed. It is a
//! library of laws, and stands on sig_meaning_laws and sig_doing_laws.
#![tactic(auto)]

mod laws;
mod laws_ends;

pub use laws::{
    accepted_plans_are_runnable, actors_go_past_no_fault, events_are_enabled_until_all_have_ended,
    events_keep_to_the_reference, interleavings_stay_on_the_reference,
    lists_of_changes_are_bounded, the_opening_is_on_the_reference,
};
pub use laws_ends::{
    committed_texts_begin_the_reference, finished_states_have_the_end,
    states_begin_the_longest_trace,
};
