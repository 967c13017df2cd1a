//! What every other crate of sigc speaks of: numbers of signals, equations and operations, kinds,
//! texts, places in a program and in a run, traces, functions of values, and the limits. It stands on no other crate.
#![tactic(auto)]

mod functions;
mod ids;
pub mod limits;
mod place;
mod signal;
mod span;
mod text;
mod traces;

pub use functions::{functions_give_one_value, functions_give_values_without_bounds};
pub use ids::{EqId, Full, Kind, OpId, SigId};
pub use place::{Place, packing_keeps_order, places_are_ordered, words_are_ordered};
pub use signal::Signal;
pub use span::Span;
pub use text::Text;
pub use traces::{
    flows_of_reduced_traces, integers_have_64_bits, prefixes_are_ordered, reduced_traces,
};
