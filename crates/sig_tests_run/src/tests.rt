//! The tests of each crate in a module of its name, and a runtime that a signal interrupts.

mod base;
mod chunk;
mod halt;
mod link;
mod load;
mod signals;
mod text;
