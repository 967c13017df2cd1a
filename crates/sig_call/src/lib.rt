//! The expansion of calls: the flat body of a well-formed program, in which each call is replaced by a
//! copy of the body of the process that is called. What a flat body is, is defined in sig_tree; `inline`
//! makes it, or refuses a program whose flat body has more than 512 signals. It stops as soon as there
//! are more, however long the flat body would be. It stands on sig_base, sig_tree and sig_scope.
#![tactic(auto)]

mod answer;
mod binding;
mod calls;
mod cluster;
mod copy;
mod expansion;
mod expression;
mod flat_body;
mod laws;
mod signal_names;
mod well_made;

pub use answer::CallAnswer;
pub use flat_body::inline;
pub use laws::{
    names_of_flat_bodies, places_of_flat_bodies, size_of_flat_bodies, some_flat_body,
    trees_of_texts,
};
pub use signal_names::signals_have_names;
pub use well_made::flat_bodies_are_well_made;
