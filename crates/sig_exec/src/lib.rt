//! Runs of verified images: the operations are done one after another in the image's order, instant by instant, with no
//! compiling and no look whether what they read was written. What the run of an image is, sig_file defines. It stands on
//! sig_verify, whose images it runs, on sig_cells, by which their instructions go, and on sig_flow for the text of values.
#![tactic(auto)]

mod answer;
mod execute;
mod fault;
mod functions;
mod images;
mod laws;
mod lowered;
mod lowering;
mod machine;
mod putting;
mod react;

pub use answer::ExecAnswer;
pub use execute::exec;
pub use laws::{committed_values_have_kinds, images_have_one_run};
pub use sig_verify::{Verified, VerifyAnswer, verify};
