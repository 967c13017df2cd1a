//! Laws of the images of plans: they are sound, and they run as their plans do. It stands on sig_file, whose images
//! these are, and on sig_doing_laws, which says what the operations of a plan make of an instant.
#![tactic(auto)]

mod laws;

pub use laws::{images_of_plans_are_sound, images_run_as_their_plans};
