//! Pieces of a text, appended one after another.

ghost use Rattle.std.specs.Prelude.{OnOk, decimal};
ghost use Rattle.sig_load.specs.inner.Pieces.{Appends, numbered};

use itoa::Buffer;
use std::alloc::AllocError;

/// Appends a piece.
pub fn put(text: &mut Vec<u8>, piece: &[u8]) -> Result<(), AllocError>
    ensures { OnOk result (Appends text.old.items piece.now text.new.items) }
{
    text.extend_from_slice(piece)
}

/// Appends a number in decimal.
pub fn put_number(text: &mut Vec<u8>, number: u64) -> Result<(), AllocError>
    ensures { OnOk result (Appends text.old.items (decimal number) text.new.items) }
{
    let mut buffer = Buffer::new();
    put(text, buffer.format(number).as_bytes())
}

/// Appends the name of a signal: a letter and a number.
pub fn put_name(text: &mut Vec<u8>, letter: u8, number: u32) -> Result<(), AllocError>
    ensures { OnOk result (Appends text.old.items (numbered letter number) text.new.items) }
{
    put(text, &[letter])?;
    put_number(text, u64::from(number))
}
