//! Numbers and names.

ghost use Rattle.std.specs.Prelude.{◌≡◌, ◌++◌, OnOk, decimal};
ghost use Rattle.sig_c.specs.Layout.{number_text, size_text};
ghost use Rattle.sig_c.specs.Written.{name_at};

use itoa::Buffer;
use sig_base::Text;
use std::alloc::AllocError;

/// The least number that is not written in decimal alone.
const LARGE: u64 = 2_147_483_648;

/// Appends a number in decimal.
pub(crate) fn put_number(text: &mut Vec<u8>, number: u64) -> Result<(), AllocError>
    ensures { OnOk result (text.new.items ≡ text.old.items ++ decimal number) }
{
    let mut buffer = Buffer::new();
    text.extend_from_slice(buffer.format(number).as_bytes())
}

/// Appends a size, with a type where it is large.
fn put_size(text: &mut Vec<u8>, size: u64) -> Result<(), AllocError>
    ensures { OnOk result (text.new.items ≡ text.old.items ++ size_text size) }
{
    if size < LARGE {
        put_number(text, size)
    } else {
        text.extend_from_slice(b"INT64_C(")?;
        put_number(text, size)?;
        text.extend_from_slice(b")")
    }
}

/// Appends a number of 64 bits.
pub(crate) fn put_value(text: &mut Vec<u8>, value: i64) -> Result<(), AllocError>
    ensures { OnOk result (text.new.items ≡ text.old.items ++ number_text value) }
{
    if value == i64::MAX {
        text.extend_from_slice(b"INT64_MAX")
    } else if value == i64::MIN {
        text.extend_from_slice(b"INT64_MIN")
    } else if value < 0 {
        text.extend_from_slice(b"-")?;
        put_size(text, value.unsigned_abs())
    } else {
        put_size(text, value as u64)
    }
}

/// Appends the name of a number.
pub(crate) fn put_name(text: &mut Vec<u8>, names: &[Text], number: usize) -> Result<(), AllocError>
    ensures { OnOk result (text.new.items ≡ text.old.items ++ name_at names.now number) }
{
    match names.get(number) {
        Some(name) => text.extend_from_slice(name.as_bytes()),
        None => Ok(()),
    }
}
