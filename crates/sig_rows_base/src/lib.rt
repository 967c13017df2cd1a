//! What rows share. Texts stand for bytes, and programs for trees, flat bodies and kernels, which the passes behind are asked
//! about. It stands on sig_front.
#![tactic(auto)]

mod bytes;
mod programs;

pub use bytes::bytes_of;
pub use programs::{flat_of, kernel_of, read_program, written};
