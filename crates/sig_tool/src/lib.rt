//! The top call of sigc: from the words of a command line, files and sinks to a status. It reads the
//! words by sig_words and hands each command to the crate that promises what it does: sig_compile_command,
//! sig_judge_command, sig_run_command, sig_play_command, sig_load_command or sig_image_command. What they promise has one form, the task of
//! sig_outcome, of which each clause of `sig_main` is a part. `specs/Headline.antt` has all that is promised on one page.
#![tactic(auto)]

mod headline;
mod perform;
mod top;
mod words;

pub use headline::accepted_programs_keep_the_headline;
pub use sig_compile_command::{good_programs_compile, good_texts_print};
pub use sig_image_command::{
    builds_have_one_outcome, execs_have_one_outcome, good_builds_are_done, good_execs_end,
    images_of_kernels_are_one, images_run_as_their_kernels,
};
pub use sig_load_command::{good_loads_end, loads_have_one_outcome};
pub use sig_play_command::{good_plays_end, plays_have_one_outcome};
pub use sig_program::{kernels_have_a_verdict, one_verdict};
pub use sig_run_command::{good_runs_end, runs_have_one_outcome};
pub use top::{good_commands_are_done, one_outcome, sig_main};
