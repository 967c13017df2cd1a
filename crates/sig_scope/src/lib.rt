//! What the processes of a program declare and say, each found by its name: `Processes`, `Interface`,
//! `Scope`, `Texts` and `flat_equations`; and `Typed`, a well-formed program with the kinds of its
//! expressions. It stands on sig_base and sig_tree.
#![tactic(auto)]

mod declared;
mod equations;
mod processes;
mod scope;
mod texts;
mod typed;

pub use declared::{Declared, Role};
pub use equations::flat_equations;
pub use processes::Processes;
pub use scope::{Interface, Scope};
pub use texts::Texts;
pub use typed::Typed;
