//! The program `sig_passes`: what each pass of the compiler answers for a program, as text, and whether the rows of row
//! files have the answers that are wanted.
#![tactic(auto)]

mod answer;
mod report;
mod rows;

use anyhow::Result;
use report::print_report;
use rows::check_files;
use std::env;
use std::process::ExitCode;

fn main(rt: HostRuntime) -> Result<ExitCode> {
    let words: Vec<String> = env::args(&rt)?.skip(1).collect(rt.alloc())?;
    match words.as_slice().split_first() {
        Some((first, files)) if first.as_str() == "--rows" => check_files(&rt, files),
        Some((program, flows)) => print_report(&rt, program, flows.first()),
        None => Ok(ExitCode::from(2)),
    }
}
