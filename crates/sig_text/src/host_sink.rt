//! A sink over a stream of the operating system.

ghost use Rattle.std.specs.Prelude.{◌≤◌, ⊤, IfOk, length};

use super::calls::MemAnswer;
use super::sink::{Sink, WriteFault, Wrote};
use std::alloc::Global;
use std::io::{self, BufWriter, ErrorKind, Write};

/// How many bytes wait in the buffer at most.
const BUFFER: usize = 65_536;

/// A sink over a stream, such as standard output. Bytes wait in a buffer, which is passed on when it
/// is full and by a flush; where the sink is dropped after a fault, what still waits in the buffer is
/// passed on once more. It tells nothing of its bytes and counts faults.
#[derive(Drop)]
pub struct HostSink<W: Write + Drop> {
    stream: BufWriter<W>,
    clean: bool,
    faults: u64,
}

impl<W: Write + Drop> HostSink<W> {
    /// A sink over this stream, with its buffer. Only memory can be wanting.
    pub fn new(alloc: Global, stream: W) -> Result<HostSink<W>, MemAnswer> {
        match BufWriter::with_capacity(alloc, BUFFER, stream) {
            Ok(stream) => Ok(HostSink {
                stream,
                clean: false,
                faults: 0,
            }),
            Err(_) => Err(MemAnswer::OutOfMemory),
        }
    }
}

impl<W: Write + Drop> Sink for HostSink<W> {
    ghost took = { λ _ _ _. ⊤ };

    ghost faults = { λ sink. sink.faults };

    ghost clean = { λ sink. sink.clean };

    fn write(&mut self, piece: &[u8]) -> Wrote {
        self.clean = false;
        match write_retrying(&mut self.stream, piece) {
            Ok(taken) if taken > 0 || piece.is_empty() => Wrote::Took(taken),
            _ => {
                self.faults = self.faults.saturating_add(1);
                Wrote::Failed
            }
        }
    }

    fn flush(&mut self) -> Result<(), WriteFault> {
        match self.stream.flush() {
            Ok(()) => {
                self.clean = true;
                Ok(())
            }
            Err(_) => {
                self.faults = self.faults.saturating_add(1);
                Err(WriteFault)
            }
        }
    }

    ghost took_nothing = { λ _. tt };

    ghost took_both = { λ _ _ _ _ _ _ _. tt };
}

// One write, made again where a signal interrupts it.
fn write_retrying<W: Write>(writer: &mut W, piece: &[u8]) -> io::Result<usize>
    ensures { IfOk result (λ count. count ≤ length piece.now) }
{
    for _ in 0..u64::MAX {
        match writer.write(piece) {
            Err(error) if error.kind() == ErrorKind::Interrupted => {}
            result => return result,
        }
    }
    Err(io::Error::from(ErrorKind::Interrupted))
}
