//! What an actor makes of an instant that does all operations of an accepted plan, one after another in
//! the compiled order (`specs/`). It is a library of laws, and stands on sig_meaning_laws.
#![tactic(auto)]

mod laws;

pub use laws::{
    committed_traces_begin_the_longest, faults_end_runs, guards_are_known, instants_are_committed,
    limits_end_runs, next_instants_exist, operations_are_done, operations_are_passed_over,
    runs_begin,
};
