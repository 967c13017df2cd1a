//! Rows of a table, what each of them does, and the test that compares.

mod events;
mod kept;
mod loaded;
mod rows;
mod runs;
mod steps;
