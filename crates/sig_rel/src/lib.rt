//! The clocks of a kernel, substituted into one another; where nothing determines them, something is
//! cut, and gets a variable of its own. The triangular kernels, which need no cuts. And the clock
//! relation of a kernel: one diagram that is true exactly of its abstract reactions, over unknowns for
//! the presence of each clock class and the truth of each boolean.
//! It stands on sig_clock, whose abstract reactions these are, and on sig_dd.
#![tactic(auto)]

mod answer;
mod arranging;
mod cuts;
mod elements;
mod firsts;
mod free;
mod functions;
mod general;
mod laws;
mod links;
mod making;
mod numbering;
mod own;
mod placing;
mod relations;
mod residue;
mod rules;
mod schedules;
mod statuses;
mod substitution;
mod systems;
mod triangles;
mod writing;

pub use answer::RelAnswer;
pub use elements::Element;
pub use free::free_system;
pub use general::system;
pub use laws::{reactions_are_truths, relations_see_reactions, statuses_are_those_of_unknowns};
pub use making::relation;
pub use relations::Relation;
pub use systems::System;
pub use triangles::triangle;
