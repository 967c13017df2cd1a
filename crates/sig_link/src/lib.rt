//! A link between two threads: a queue of items of one type with one end that puts and one end that
//! takes. The rule that every step keeps is that what was sent is what was taken, followed by what
//! the queue holds. It stands on sig_base, of which it takes `Full`, and on the kit's
//! `crossbeam_queue` and `crossbeam_utils`.
#![tactic(auto)]

mod laws;
mod opening;
mod put;
mod rule;
mod settling;
mod steps;
mod take;

pub use laws::{ends_may_be_moved, steps_keep_the_rule, taken_is_a_prefix};
pub use opening::{LinkAnswer, link};
pub use put::Put;
pub use settling::{Settled, settle};
pub use take::Take;
