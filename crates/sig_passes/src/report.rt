//! The report on a program's file.

use anyhow::Result;
use sig_base::limits::{FLOW_BYTES, PROGRAM_BYTES};
use sig_report::push_report;
use sig_text::{HostFiles, read_all};
use std::io::Print;
use std::process::ExitCode;
use std::rt::Files;

/// Prints what the passes answer for the program in a file, with the flows in another one.
pub(crate) fn print_report<R: Print + Files + AllocGlobal>(
    rt: &R,
    program: &str,
    flows: Option<&String>,
) -> Result<ExitCode> {
    let mut files = HostFiles::new(rt);
    let text = read_all(rt.alloc(), &mut files, program, PROGRAM_BYTES + 1)?;
    let bytes = match flows {
        Some(flows) => Some(read_all(rt.alloc(), &mut files, flows, FLOW_BYTES)?),
        None => None,
    };
    print_passes(rt, &text, bytes.as_deref())
}

fn print_passes<R: Print + AllocGlobal>(
    rt: &R,
    program: &[u8],
    flows: Option<&[u8]>,
) -> Result<ExitCode> {
    let mut out = String::new(rt.alloc());
    push_report(rt.alloc(), &mut out, program, flows)?;
    print!(rt; "{out}")?;
    Ok(ExitCode::SUCCESS)
}
