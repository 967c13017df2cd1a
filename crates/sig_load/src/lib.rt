//! The load of sigc: a generated program of up to twelve stages, its flows by draws from a seed, and
//! a sink that counts and sums what a run of it writes. The two texts are defined in
//! `specs/Program.antt` and `specs/Flows.antt`. It stands on sig_base and sig_text.
#![tactic(auto)]

mod answer;
mod draws;
mod flows;
mod pieces;
mod program;
mod tally;

pub use answer::LoadAnswer;
pub use flows::flows_text;
pub use program::program_text;
pub use tally::TallySink;
