//! Flow files and event files, and the text of a value. What a file says, and which place of it
//! offends first, is defined in `specs/`, apart from the readers. It stands on sig_base, sig_text and
//! sig_kernel.
#![tactic(auto)]

mod answer;
mod backward;
mod body;
mod digits;
mod event;
mod flow;
mod flow_line;
mod laws;
mod line;
mod named;
mod names;
mod output_lines;
mod pieces;
mod put;
mod read;
mod value;
mod version;
mod word;

pub use answer::{EventAnswer, FlowAnswer};
pub use event::{FileEvent, read_events};
pub use laws::{first_wrong_word, flows_that_are_read_fit, one_event_reading, one_flow_reading};
pub use line::next_line;
pub use named::{input_named, is_clean};
pub use output_lines::OutputLines;
pub use put::put_value;
pub use read::{read_flows, read_named};
pub use value::{WordFault, value_of};
pub use word::{Next, next_word};
