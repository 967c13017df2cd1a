//! Kinds of expressions: the table of their forms, by which `Form` tells the kind of a form and which
//! operands it refuses, and `kinds_of`, the kinds of all expressions of a program. It stands on
//! sig_base, sig_tree and sig_scope.
#![tactic(auto)]

mod forms;
mod kinds;

pub use forms::{
    ConstantRule, Form, OperandRule, ResultRule, binary_form, cell_form, delay_form, takes,
    unary_form,
};
pub use kinds::kinds_of;
