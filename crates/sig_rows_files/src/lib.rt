//! Rows about flows, traces and images. What files hold and what comes of it is written as text; `rows.rt` has the kinds of rows.
//! It stands on the crates of files, on sig_back for the plan that an image is made of, and on sig_rows_base for the program.
#![tactic(auto)]

mod fits;
mod flows;
mod images;
mod rows;
mod runs;
mod traces;

pub use rows::write_file_row;
