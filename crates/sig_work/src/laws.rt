//! Laws of shares, and of what actors that were run by themselves come to. The function of a law does
//! nothing when it runs.

use crate::ends::LinkEnds;
use crate::member::Member;
use crate::share::Share;
pub use sig_settling_laws::{
    own_steps_are_an_interleaving, settled_actors_are_finished, settled_actors_have_acted_in_order,
};

/// A law: a share may be moved to another thread, with its actors and the ends of their links.
pub fn a_share_may_be_moved() {
    may_be_moved::<LinkEnds>();
    may_be_moved::<Member>();
    may_be_moved::<Share>();
}

fn may_be_moved<T: Send>() {}
