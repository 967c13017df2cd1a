//! The commands on images: `build`, which compiles a program by sig_program and writes the bytes of its image
//! by sig_file, and `exec`, which reads such a file by sig_file, verifies it by sig_verify, and runs it over
//! flows by sig_exec, without compiling. What the commands come to is defined in `specs/Builds.antt` and
//! `specs/Execs.antt`. It stands on sig_loaded for flow files and on sig_outcome for what every command promises.
#![tactic(auto)]

mod build;
mod exec;
mod image_file;
mod laws;
mod load;
mod report;
mod shipped;

pub use build::build_command;
pub use exec::exec_command;
pub use laws::{
    builds_have_one_outcome, execs_have_one_outcome, good_builds_are_done, good_execs_end,
    image_files_have_a_verdict, images_of_kernels_are_one, images_of_kernels_are_right,
};
pub use shipped::{
    built_images_come_to_what_their_programs_do, built_images_end_as_their_programs,
    images_run_as_their_kernels,
};
