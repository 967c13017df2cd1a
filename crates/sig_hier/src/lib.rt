//! The clock hierarchy of a kernel: the parent of each class of signals is a class that is present
//! wherever it is, and its text. It stands on sig_clock, whose classes these are, and on sig_dd, which
//! tells whether one guard implies another.
#![tactic(auto)]

mod answer;
mod laws;
mod making;
mod preorder;
mod text;
mod trees;

pub use answer::TreeAnswer;
pub use laws::{a_kernel_has_one_tree_text, each_class_has_one_line};
pub use making::tree;
pub use text::tree_text;
pub use trees::Tree;
