//! The tests of what runs a plan: sig_alone, sig_step, sig_interleaving and sig_work. It has no function of its own.
#![tactic(auto)]

#[cfg(test)]
mod tests;
