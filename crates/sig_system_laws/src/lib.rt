//! Systems of accepted programs that are joined by links, first in first out: what they do in every order of their
//! reactions (`specs/`). It is a library of laws, and stands on sig_deciding_laws.
#![tactic(auto)]

mod laws;

pub use laws::{
    bounded_interleavings_join, bounded_systems_come_to_stand_still, bounds_add_nothing,
    faults_are_final, final_states_are_one, final_states_are_runs, interleavings_join,
    links_with_room_change_nothing, longer_flows_keep_what_was_done,
    starved_programs_have_taken_all, systems_come_to_a_final_state,
};
