//! A stream and files that a signal interrupts.

use std::alloc::Allocator;
use std::fs::{Metadata, OpenFile, OpenOptions};
use std::io::{Error, ErrorKind, Read, Seek, SeekFrom, Write};
use std::{io, rt};

/// Is interrupted at every other call, and takes or gives one byte at the others, up to so many. Each
/// byte that it gives is an `x`.
#[derive(Drop)]
pub struct Interrupted {
    pub was_interrupted: bool,
    pub left: usize,
}

impl Interrupted {
    /// One byte, where one is left, at the calls that go through.
    fn one(&mut self, wanted: usize) -> io::Result<usize> {
        self.was_interrupted = !self.was_interrupted;
        if self.was_interrupted {
            return Err(Error::from(ErrorKind::Interrupted));
        }
        let count = wanted.min(1).min(self.left);
        self.left -= count;
        Ok(count)
    }
}

impl Write for Interrupted {
    fn write(&mut self, piece: &[u8]) -> io::Result<usize> {
        let count = self.one(piece.len())?;
        Ok(count.min(piece.len()))
    }

    fn flush(&mut self) -> io::Result<()> {
        Ok(())
    }
}

impl Read for Interrupted {
    fn read(&mut self, piece: &mut [u8]) -> io::Result<usize> {
        let count = self.one(piece.len())?.min(piece.len());
        for byte in piece.iter_mut().take(count) {
            *byte = b'x';
        }
        Ok(count)
    }
}

fn unsupported() -> Error {
    Error::from(ErrorKind::Unsupported)
}

impl Seek for Interrupted {
    fn seek(&mut self, _to: SeekFrom) -> io::Result<u64> {
        Err(unsupported())
    }
}

impl OpenFile for Interrupted {
    fn metadata(&self) -> io::Result<Metadata> {
        Err(unsupported())
    }

    fn set_len(&self, _size: u64) -> io::Result<()> {
        Err(unsupported())
    }

    fn sync_all(&self) -> io::Result<()> {
        Err(unsupported())
    }

    fn sync_data(&self) -> io::Result<()> {
        Err(unsupported())
    }
}

/// Files of so many bytes, whatever their names are.
#[derive(Drop)]
pub struct InterruptedFiles {
    pub length: usize,
}

impl rt::Files for InterruptedFiles {
    type File = Interrupted;

    type Dir = Interrupted;

    fn open_file(&self, _how: &OpenOptions, _path: &str) -> io::Result<Interrupted> {
        Ok(Interrupted {
            was_interrupted: false,
            left: self.length,
        })
    }

    fn open_dir(&self, _path: &str) -> io::Result<Interrupted> {
        Err(unsupported())
    }

    fn metadata(&self, _path: &str) -> io::Result<Metadata> {
        Err(unsupported())
    }

    fn symlink_metadata(&self, _path: &str) -> io::Result<Metadata> {
        Err(unsupported())
    }

    fn copy(&self, _from: &str, _to: &str) -> io::Result<u64> {
        Err(unsupported())
    }

    fn rename(&self, _from: &str, _to: &str) -> io::Result<()> {
        Err(unsupported())
    }

    fn remove_file(&self, _path: &str) -> io::Result<()> {
        Err(unsupported())
    }

    fn create_dir(&self, _path: &str) -> io::Result<()> {
        Err(unsupported())
    }

    fn remove_dir(&self, _path: &str) -> io::Result<()> {
        Err(unsupported())
    }

    fn remove_dir_all<B: Allocator>(&self, _alloc: B, _path: &str) -> io::Result<()> {
        Err(unsupported())
    }
}
