//! The command line of sigc: its words as one of ten commands with their settings, or a refusal.
//! What the words of a command are is defined in `specs/Commands.antt`, apart from how they are read.
//! It stands on sig_base and on the kit's clap.
#![tactic(auto)]

mod answer;
mod command;
mod given;
mod laws;
mod number;
mod option;
mod plain;
mod read;
mod settings;
mod verb;

pub use answer::WordsAnswer;
pub use command::{Command, Settings};
pub use laws::one_command;
pub use read::read_words;
