//! What functions give of values, the next values of inputs, the initial values of delays, and the text of an instant. What that
//! is, sig_model and sig_kernel say. What the lines of a reaction are stands here too, in `specs/Lines.antt`.
#![tactic(auto)]

mod computed;
mod defined;
mod initial;
mod lines;
mod next;
mod reaction;

pub use computed::{computed_of_one, computed_of_two};
pub use defined::defined_by;
pub use initial::initial_values;
pub use lines::put_instant;
pub use next::next_value;
pub use reaction::{lines_for, put_reaction};
