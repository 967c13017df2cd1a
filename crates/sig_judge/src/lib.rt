//! The judge of traces: whether a trace is one of the process of a flat body. What that means is
//! defined in sig_tree; the judge reads a trace once, instant by instant. It stands on sig_tree, and on
//! sig_flow for the lines and words of trace files.
#![tactic(auto)]

mod answer;
mod body;
mod equation;
mod function;
mod header;
mod laws;
mod node;
mod operator;
mod presence;
mod read;
mod row;
mod trace;
mod trace_answer;
mod verdict;

pub use answer::JudgeAnswer;
pub use laws::traces_have_a_verdict;
pub use read::read_trace;
pub use trace::{Row, Seen, Trace};
pub use trace_answer::TraceAnswer;
pub use verdict::{Verdict, judge};
