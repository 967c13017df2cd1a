//! The program `sigc`: the top call of `sig_tool` over the command line, the files and the streams of
//! the operating system.
#![tactic(auto)]

use sig_text::{Gate, HostFiles, HostSink, Sink, put_all};
use sig_tool::sig_main;
use std::env;
use std::io::{self, ErrorKind};
use std::process::ExitCode;

/// A gate at which nobody waits.
struct Open;

impl Gate for Open {
    fn pass(&self, _cluster: u32, _instant: u32) {}
}

fn main(rt: HostRuntime) -> ExitCode {
    let (Ok(mut out), Ok(mut err)) = (
        HostSink::new(rt.alloc(), rt.stdout()),
        HostSink::new(rt.alloc(), rt.stderr()),
    ) else {
        return ExitCode::from(7);
    };
    let status = match words(&rt) {
        Ok(words) => {
            let mut files = HostFiles::new(&rt);
            sig_main(
                &rt,
                rt.alloc(),
                &words,
                &mut files,
                &mut out,
                &mut err,
                &Open,
            )
        }
        Err(error) => refuse(&error, &mut err),
    };
    ExitCode::from(status)
}

/// The words of the command line behind the program's name.
fn words<R: env::Env + AllocGlobal>(rt: &R) -> io::Result<Vec<String>> {
    Ok(env::args(rt)?.skip(1).collect(rt.alloc())?)
}

/// Says that the words were not read, and answers the status: 7 where memory was wanting, and 2 for a
/// word that is not UTF-8.
fn refuse<E: Sink>(error: &io::Error, err: &mut E) -> u8 {
    let (line, status) = match error.kind() {
        ErrorKind::OutOfMemory => (b"error: out of memory\n".as_slice(), 7),
        _ => (b"error: these words are not a command\n".as_slice(), 2),
    };
    if put_all(err, line).is_ok() {
        let _ = err.flush();
    }
    status
}
