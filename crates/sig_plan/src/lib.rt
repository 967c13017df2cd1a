//! The plan of a kernel: its operations and the order in which they are done, the clusters that do
//! them, the links between these, and the code of each cluster (`specs/`). It stands on sig_clock,
//! whose clock functions are the guards of operations.
#![tactic(auto)]

mod answer;
mod code;
mod ended;
mod laws;
mod laws_accepted;
mod laws_done;
mod laws_links;
mod making;
mod op;
mod parts;
mod plan;
mod sharing;
mod source;

pub use answer::PlanAnswer;
pub use code::{Code, Slot, Step, StepKind};
pub use ended::{Cause, Ended};
pub use laws::{
    a_kernel_has_its_operations_once, a_kernel_has_one_fault_at_most, clocks_stay,
    operations_have_one_order, operations_need_few_nodes,
};
pub use laws_accepted::{
    a_kernel_has_one_plan, accepted_plans_have_their_operations, codes_name_what_is_there,
    guards_of_plans_ask_no_absent_condition, instructions_are_for_operations,
    signals_are_written_in_their_clusters, steps_have_what_they_need,
};
pub use laws_done::{
    guards_depend_on_conditions_alone, operations_have_what_they_need,
    operations_name_what_is_there, present_signals_are_written_once, read_signals_are_present,
};
pub use laws_links::{
    actors_have_what_they_need, links_have_one_writer_and_one_reader, what_is_sent_is_received,
};
pub use making::operations;
pub use op::{Op, OpKind, Reads};
pub use parts::{Imports, LinkInfo, Parts};
pub use plan::Plan;
pub use sharing::plans_may_be_shared;
