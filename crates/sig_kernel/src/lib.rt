//! The kernel of a program: signals and equations of seven forms, and the flows of its inputs. It
//! stands on sig_base.
#![tactic(auto)]

mod equation;
mod flow;
mod kernel;
mod laws;
mod sharing;
mod table;
mod valid;

pub use equation::{Equation, Form, FunOp, Operand, Operands};
pub use flow::{Flow, Inputs};
pub use kernel::{Equations, Kernel, Signals};
pub use laws::{
    a_kernel_has_one_longest_trace, beginnings_are_traces, bounded_traces_are_unbounded,
    constants_are_values, delays_give_the_previous_value, delays_remember_the_last_value,
    delays_remember_values, flows_hold_values, silent_instants_make_no_difference,
    texts_grow_with_traces, traces_go_on_by_instants,
};
pub use sharing::kernels_and_flows_may_be_shared;
pub use table::Sort;
