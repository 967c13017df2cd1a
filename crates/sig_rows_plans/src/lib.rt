//! Rows about plans. What is asked of the plan of a kernel and of its parts is written as text; `plans.rt` has the kinds of rows.
//! It stands on the crates of plans, on sig_back, and on sig_rows_base for the kernel of a program.
#![tactic(auto)]

mod guards;
mod plans;

pub use plans::write_plan_row;
