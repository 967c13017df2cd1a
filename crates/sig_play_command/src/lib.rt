//! The command `play`: a program and its flows are loaded by sig_loaded and the events of an event file are
//! read by sig_flow, the events happen one after another at the core of sig_interleaving, the state that they leave
//! is written, and then the rest of the text by a run of sig_alone. What the command comes to is defined in
//! `specs/Plays.antt`. It stands on sig_outcome for what every command promises.
#![tactic(auto)]

mod command;
mod event_file;
mod events;
mod laws;
mod load;
mod plans;
mod play;
mod rest;
mod state;
mod writing;

pub use command::play_command;
pub use laws::{good_plays_end, plays_have_one_outcome};
