//! The failure word: one 64-bit word that several threads share, which is the least place that any
//! of them recorded, or none. Each thread holds a seat, which knows the least place that it recorded
//! and the least word that it has seen. Threads that find nothing to do rest at it. It stands on
//! sig_base, of which it takes `Place`, and on the kit's `atomic_table` and `crossbeam_utils`.
#![tactic(auto)]

mod halt;
mod halt_seat;
mod laws;
mod rest;
mod resting;
mod rule;
mod steps;

pub use halt::{Halt, HaltAnswer};
pub use halt_seat::HaltSeat;
pub use laws::{a_word_may_be_shared, steps_keep_the_rule};
pub use rest::Rest;
