//! The text of the step of an image in small C.
#![tactic(auto)]

mod answer;
mod blocks;
mod ends;
mod frame;
mod functions;
mod guards;
mod head;
mod laws;
pub mod limits;
mod lines;
mod names;
mod operations;
mod pieces;
mod unread;

pub use answer::WriteAnswer;
pub use laws::texts_are_units;
pub use names::{StepNames, StepNotes};
pub use unread::Unread;
