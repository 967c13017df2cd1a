//! Which processes of a program lead to which by calls: `Calls` has the calls of all processes by their
//! places, `is_recursive` walks along them, and `none_leads_back` rules most of that out by ranks of the
//! processes. It stands on sig_tree and sig_scope.
#![tactic(auto)]

mod calls;
mod ranks;

pub use calls::{Calls, called_names, is_recursive, none_leads_back};
