//! The lines of the outputs of an instant.

ghost use Rattle.std.specs.Prelude.{◌≡◌, ◌≤◌, ◌+◌, ◌++◌, IsTrue};
ghost use Rattle.sig_flow.specs.Prelude.{[], length, IfOk, IfSome, line_of, sum_by};
ghost use Rattle.sig_flow.specs.OutputLines.{longest_line, longest_lines};

use crate::backward::line_before;
use sig_base::Signal;
use std::alloc::{AllocError, Global};
use std::marker::Model;

/// How many bytes a line has beside its name at most: a blank, an integer of 64 bits and a newline.
const BESIDE_NAME: usize = 22;

/// Lines of outputs, of which each new one goes in front of those that are there. All memory that they need is taken when
/// this is made.
#[derive(Drop)]
pub struct OutputLines {
    bytes: Vec<u8>,
    start: usize,
}

impl Model for OutputLines {
    ghost use Rattle.std.specs.Prelude.{◌≤◌, drop, vec_len};
    ghost use Rattle.sig_flow.specs.OutputLines.{LinesInFront};

    ghost Value = { LinesInFront };

    ghost view = { λ lines. record { size = vec_len lines.bytes; text = drop lines.start lines.bytes.items } };

    ghost invariant = { λ lines. lines.start ≤ vec_len lines.bytes };
}

impl OutputLines {
    /// No lines, and room for one of each of these signals. Only memory can be wanting.
    pub fn new(alloc: Global, signals: &[Signal]) -> Result<OutputLines, AllocError>
        ensures none { IfOk result (λ lines. lines.text ≡ []) }
        ensures size { IfOk result (λ lines. lines.size ≡ longest_lines signals.now) }
    {
        let Some(size) = longest_lines(signals) else {
            return Err(AllocError);
        };
        Ok(OutputLines {
            bytes: zeros(alloc, size)?,
            start: size,
        })
    }

    /// Whether one line of each of these signals has room.
    pub fn has_room_for(&self, signals: &[Signal]) -> bool
        ensures { IsTrue result → longest_lines signals.now ≤ self.now.size }
    {
        match longest_lines(signals) {
            Some(size) => size <= self.bytes.len(),
            None => false,
        }
    }

    /// Forgets all lines.
    pub fn clear(&mut self)
        ensures none { self.new.text ≡ [] }
        ensures size { self.new.size ≡ self.old.size }
    {
        self.start = self.bytes.len();
    }

    /// Puts the line of a value in front of all lines: the signal's name, a blank, the value and a newline. It takes no
    /// memory.
    #[inline(always)]
    pub fn put_in_front(&mut self, signal: &Signal, item: i64)
        requires room { length self.old.text + longest_line signal.now ≤ self.old.size }
        ensures text { self.new.text ≡ line_of signal.now.name signal.now.kind item ++ self.old.text }
        ensures size { self.new.size ≡ self.old.size }
        ensures longest { length self.new.text ≤ length self.old.text + longest_line signal.now }
    {
        self.start = line_before(
            self.bytes.as_mut_slice(),
            self.start,
            signal.name.as_bytes(),
            signal.kind,
            item,
        );
    }

    /// The text of the lines.
    pub fn as_bytes(&self) -> &[u8]
        ensures { result.now ≡ self.now.text }
    {
        &self.bytes.as_slice()[self.start..]
    }
}

/// How many bytes the lines of these signals have at most, where a length can tell it.
fn longest_lines(signals: &[Signal]) -> Option<usize>
    ensures { IfSome result (λ size. size ≡ longest_lines signals.now) }
{
    let mut size: usize = 0;
    for signal in signals {
        size = size
            .checked_add(signal.name.len())?
            .checked_add(BESIDE_NAME)?;
    }
    Some(size)
}

/// So many zeros.
fn zeros(alloc: Global, count: usize) -> Result<Vec<u8>, AllocError>
    ensures { IfOk result (λ bytes. length bytes.items ≡ count) }
{
    vec![in alloc; 0; count]
}
