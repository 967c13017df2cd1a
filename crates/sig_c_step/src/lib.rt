//! The step of an image, in small C. It stands on sig_file, whose images these are, on sig_exec, which says what amid an instant of a
//! run is there, and on sig_c, which says what small C means.
#![tactic(auto)]

mod laws;

pub use laws::{
    headers_are_of_images, steps_are_laid_out, steps_may_be_written, steps_run_as_images,
};
