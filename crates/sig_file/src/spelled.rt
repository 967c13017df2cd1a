//! Names that an image can have.

ghost use Rattle.std.specs.Prelude.{◌≡◌, ◌&&◌};
ghost use Rattle.sig_file.specs.Prelude.{IsTrue, length, list_all};
ghost use Rattle.sig_file.specs.Images.{is_name, is_name_length};
ghost use Rattle.sig_file.specs.Spelled.{HasNames, is_spelled};

use crate::limits::NAME_BYTES;
use crate::parts::is_name;
use sig_base::Signal;
use sig_kernel::Kernel;

/// Whether a signal's name has the length and the bytes that an image asks for.
fn is_spelled(signal: &Signal) -> bool
    ensures { result ≡ is_spelled signal.now }
{
    let len = signal.name.len();
    0 < len && len <= NAME_BYTES as usize && is_name(signal.name.as_bytes())
}

/// Whether the names of all signals have the length and the bytes that an image asks for.
fn are_spelled(signals: &[Signal]) -> bool
    ensures { result ≡ list_all is_spelled signals.now }
{
    signals.iter().all(|signal| is_spelled(signal))
}

/// Whether the names of a kernel's signals have the length and the bytes that an image asks for.
pub fn has_names(kernel: &Kernel) -> bool
    ensures { IsTrue result → HasNames kernel.now }
{
    are_spelled(kernel.signals.as_slice())
}
