//! Paces: a kernel without a root gets a boolean input for each maximal clock, which says whether that
//! clock is present. It stands on sig_rel, whose system writes the clocks of a kernel as functions of a
//! few variables, and on sig_clock, whose abstract reactions these are.
#![tactic(auto)]

mod answer;
mod asked;
mod candidates;
mod covering;
mod laws;
mod leaders;
mod maximal;
mod names;
mod needing;
mod paced;
mod paces;
mod pacing;
mod renumbering;
mod ties;
mod tops;

pub use answer::PaceAnswer;
pub use laws::{
    a_kernel_has_one_pacing, clocks_are_present_where_their_paces_are_true,
    kernels_are_paced_or_refused, paced_kernels_are_valid, paced_kernels_have_a_root,
    paced_kernels_have_the_old_traces, paces_write_nothing, signals_are_what_they_were,
    traces_fit_the_flows_of_paces, traces_have_paces,
};
pub use pacing::pace;
