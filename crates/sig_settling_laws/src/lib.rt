//! The settling of actors that were run by themselves: where each did its own steps, with the items that it
//! took and sent, there is a schedule of all of them that comes to the same. It is a library of laws, and
//! stands on sig_schedule_laws.
#![tactic(auto)]

mod laws;

pub use laws::{
    own_steps_are_an_interleaving, settled_actors_are_finished, settled_actors_have_acted_in_order,
};
