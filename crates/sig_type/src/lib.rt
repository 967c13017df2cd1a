//! Names, kinds and calls of programs: `check` tells whether a program is well formed, and which of
//! the eleven rules of `sig_tree` it breaks first; `check_owned` gives a well-formed program back with
//! the kinds of its expressions. It stands on sig_base, sig_tree, sig_scope, sig_kinds and
//! sig_recursion.
#![tactic(auto)]

mod answer;
mod bare;
mod calls;
mod clashes;
mod finding;
mod inits;
mod left_sides;
mod names;
mod owned;
mod pragmas;
mod recursion;
mod signals;
mod well_formed;

pub use answer::TypeAnswer;
pub use owned::check_owned;
pub use well_formed::check;
