//! The tests of the top call of sig_tool, and with it of the commands that it hands on. It has no function
//! of its own.
#![tactic(auto)]

#[cfg(test)]
mod tests;
