//! What stands before the table of ends: the first comment, and the header that is included.

ghost use Rattle.std.specs.Prelude.{◌≡◌, ◌++◌, ◌∷◌, [], OnOk, codes};
ghost use Rattle.std.specs.List.{flat_map};
ghost use Rattle.sig_c.specs.File.{include_text};
ghost use Rattle.sig_c_write.specs.inner.Frames.{next_line};

use sig_base::Text;
use std::alloc::AllocError;

/// Appends a line of a comment behind another one.
fn put_next_line(text: &mut Vec<u8>, line: &Text) -> Result<(), AllocError>
    ensures { OnOk result (text.new.items ≡ text.old.items ++ next_line line.now) }
{
    text.extend_from_slice(b"\n   ")?;
    text.extend_from_slice(line.as_bytes())
}

/// Appends the lines of a comment behind the first one.
pub(crate) fn put_next_lines(text: &mut Vec<u8>, lines: &[Text]) -> Result<(), AllocError>
    ensures { OnOk result (text.new.items ≡ text.old.items ++ flat_map next_line lines.now) }
{
    for line in lines {
        put_next_line(text, line)?;
    }
    Ok(())
}

/// Appends the line that includes the header.
pub(crate) fn put_include(text: &mut Vec<u8>, include: &Text) -> Result<(), AllocError>
    ensures { OnOk result (text.new.items ≡ text.old.items ++ include_text include.now []) }
{
    text.extend_from_slice(b"#include \"")?;
    text.extend_from_slice(include.as_bytes())?;
    text.extend_from_slice(b"\"\n")
}
