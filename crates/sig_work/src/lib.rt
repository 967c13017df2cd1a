//! The clusters of a plan on worker threads: the actors are dealt to shares, each share is served by one
//! thread over ruled links and one failure word, and what the shares then hold is gathered. It stands on
//! sig_step for the steps, on sig_chunk and sig_halt for what threads share, and on sig_settling_laws for what
//! all of it comes to.
#![tactic(auto)]

mod acting;
mod answer;
mod cause;
mod circles;
mod dealing;
mod ending;
mod ends;
mod finding;
mod gathering;
mod handing;
mod handover;
mod joining;
pub mod laws;
mod lead;
mod member;
mod neighbours;
mod patience;
mod plans;
mod round;
mod running;
mod serving;
mod settling;
mod share;
mod spins;
mod stopping;
mod turn;
mod turning;
mod word;
mod workers;

pub use answer::{DealAnswer, WorkAnswer};
pub use dealing::deal;
pub use ends::LinkEnds;
pub use gathering::gather;
pub use member::{Ending, Member};
pub use running::run;
pub use serving::serve;
pub use share::Share;
