//! Reduced ordered binary decision diagrams: a store in which each function of truths has one
//! reference. It stands on `indexmap`, in which the place of a node in an `IndexSet` is its number, and on
//! `lru`, which keeps the last answers of choices over many calls.
#![tactic(auto)]

mod answer;
mod cache;
mod eval;
mod keyed;
mod laws;
mod meets;
mod node;
mod operand;
mod operations;
mod products;
mod question;
mod recursion;
mod renaming;
mod steps;
mod store;
mod support;
mod supports;

pub use answer::DdAnswer;
pub use keyed::Keyed;
pub use laws::{
    a_store_may_be_shared, calls_add_up, calls_lead_on, equal_functions_have_one_ref,
    fixed_variables_make_no_difference, functions_depend_on_their_parts, older_references_stay,
    other_variables_make_no_difference, products_forget_their_variables,
    references_depend_as_their_functions, walks_ask_nothing_idle,
};
pub use node::{Node, Ref};
pub use steps::Steps;
pub use store::Store;
pub use supports::VariableList;
