//! The files of the operating system.

ghost use Rattle.std.specs.Prelude.{◌≤◌, None, IfOk, length};

use super::files::{Begun, Files, ReadStep};
use std::io::{self, ErrorKind, Read};
use std::{fs, rt};

/// The files of the operating system, by their paths. It tells nothing of what they hold, and counts
/// faults and misses. Only a name that is not there is missing: a directory, or a file without leave
/// to be read, fails.
#[derive(Drop)]
pub struct HostFiles<'a, R: rt::Files> {
    runtime: &'a R,
    file: Option<R::File>,
    faults: u64,
    misses: u64,
}

impl<'a, R: rt::Files> HostFiles<'a, R> {
    /// The files that the runtime reaches, none of them begun.
    pub fn new(runtime: &'a R) -> HostFiles<'a, R> {
        HostFiles {
            runtime,
            file: None,
            faults: 0,
            misses: 0,
        }
    }
}

impl<'a, R: rt::Files> Files for HostFiles<'a, R> {
    ghost contents = { λ _. None };

    ghost rest = { λ _. None };

    ghost at = { λ _. None };

    ghost faults = { λ files. files.faults };

    ghost misses = { λ files. files.misses };

    fn begin(&mut self, name: &str) -> Begun {
        self.file = None;
        match fs::open(self.runtime, name) {
            Ok(file) => {
                self.file = Some(file);
                Begun::Ready
            }
            Err(error) if error.kind() == ErrorKind::NotFound => {
                self.misses = self.misses.saturating_add(1);
                Begun::Missing
            }
            Err(_) => {
                self.faults = self.faults.saturating_add(1);
                Begun::Failed
            }
        }
    }

    fn read(&mut self, piece: &mut [u8]) -> ReadStep {
        let Some(file) = &mut self.file else {
            return ReadStep::Got(0);
        };
        match read_retrying(file, piece) {
            Ok(count) => ReadStep::Got(count),
            Err(_) => {
                self.faults = self.faults.saturating_add(1);
                ReadStep::Failed
            }
        }
    }
}

// One read, made again where a signal interrupts it.
fn read_retrying<R: Read>(reader: &mut R, piece: &mut [u8]) -> io::Result<usize>
    ensures { IfOk result (λ count. count ≤ length piece.new) }
{
    for _ in 0..u64::MAX {
        match reader.read(piece) {
            Err(error) if error.kind() == ErrorKind::Interrupted => {}
            result => return result,
        }
    }
    Err(io::Error::from(ErrorKind::Interrupted))
}
