//! The tests of the crates that a run stands on: sig_base, sig_text, sig_link, sig_chunk, sig_halt and sig_load. It has
//! no function of its own.
#![tactic(auto)]

#[cfg(test)]
mod tests;
