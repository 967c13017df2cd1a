//! What a kernel does: that it has one reaction to what it remembers and is given, so one extended
//! reference and one longest trace for flows and a limit, and that the run of an accepted plan has one
//! named cause (`specs/`). It is a library of laws, and stands on sig_model.
#![tactic(auto)]

mod laws;
mod laws_accepted;

pub use laws::{functions_have_results, longest_traces_exist, references_exist_once};
pub use laws_accepted::{
    accepted_plans_have_one_reaction, faults_are_out_of_bounds, named_causes_exist_once,
    outcomes_are_of_the_reference, stores_keep_what_is_seen,
};
