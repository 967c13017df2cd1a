//! What every command shares: the outcome that it comes to, why it is refused, the line that it says on
//! `err`, the reading of its files, the writing of what is due, and the one contract of a call for it
//! (`specs/Tasks.antt`). It stands on sig_base and sig_text.
#![tactic(auto)]

mod due;
mod pieces;
mod read;
mod refusal;
mod report;

pub use due::put_due;
pub use pieces::put_pieces;
pub use read::{read_data, read_program};
pub use refusal::{Refusal, refused_program};
pub use report::{refuse, say, say_fault, say_no_memory, say_words};
