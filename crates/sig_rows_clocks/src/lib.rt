//! Rows about diagrams and clocks. What is asked of functions in a store and of the clocks of a kernel is written as text;
//! `stores.rt` and `diagrams.rt` have the kinds of rows. It stands on the crates of clocks, and on sig_rows_base for the kernel of
//! a program.
#![tactic(auto)]

mod clocks;
mod diagrams;
mod names;
mod relations;
mod stores;
mod values;

pub use stores::write_clock_row;
pub use values::is_true_at;
