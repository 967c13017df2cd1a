//! From flat bodies to kernels. The kernel of a flat body is a definition (`specs/KernelOf.antt`);
//! `to_kernel` makes it, or refuses one of more than 512 signals, and stops as soon as there are more. It
//! stands on sig_base, sig_tree and sig_kernel.
#![tactic(auto)]

mod answer;
mod derived;
mod draft;
mod expression;
mod flat_equation;
mod kernel;
mod laws;
mod operator;
mod restricted;
mod site;
mod term;
mod traces;
mod valid;

pub use answer::FlatAnswer;
pub use kernel::to_kernel;
pub use laws::{
    derived_equations_mean_operators, equations_mean_operators, kernels_have_their_parts,
    kernels_keep_places, kernels_keep_signals, kernels_name_their_signals,
};
pub use restricted::{
    longest_traces_are_longest_process_traces, restricted_traces_keep_flows,
    restricted_traces_keep_silence,
};
pub use traces::kernel_traces_are_process_traces;
pub use valid::{kernels_are_valid, kernels_have_few_equations, kernels_name_signals};
