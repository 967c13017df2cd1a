//! What each pass answers for a program. It is written section by section, as far as one refuses; bench/README.md tells the
//! sections. It stands on sig_front, on the passes behind it up to sig_back, and on sig_flow.
#![tactic(auto)]

mod report;
mod sections;
mod solutions;

pub use report::push_report;
