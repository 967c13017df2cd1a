//! That each kernel is accepted or refused: whether it has clocks, whether its operations have a cycle, and
//! which parts it has are decided; that an accepted kernel has a plan; and what is so of every accepted
//! kernel: one reaction, one reference, one longest trace, and one end of a run (`specs/`). It is a library
//! of laws, and stands on sig_meaning_laws.
#![tactic(auto)]

mod laws;
mod laws_of_kernels;

pub use laws::{
    accepted_kernels_have_plans, accepted_kernels_have_plans_where_guards_are_held,
    kernels_are_accepted_or_refused,
};
pub use laws_of_kernels::{
    accepted_kernels_have_one_end, accepted_kernels_have_one_longest_trace,
    accepted_kernels_have_one_order, accepted_kernels_have_one_reference,
    accepted_kernels_react_once, ends_of_plans_are_those_of_their_kernels,
};
