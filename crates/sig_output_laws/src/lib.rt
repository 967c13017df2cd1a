//! What each actor of an accepted plan has put out by itself, before any collector, in every interleaving (`specs/`). It is a
//! library of laws, and stands on sig_schedule_laws.
#![tactic(auto)]

mod laws;

pub use laws::{
    clusters_are_ahead_by_the_capacity, ended_actors_have_put_out_the_longest_trace,
    outputs_and_the_longest_trace_begin_one_another,
    outputs_begin_the_longest_trace_without_failures, outputs_begin_the_reference,
};
