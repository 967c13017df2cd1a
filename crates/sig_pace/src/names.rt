//! The names of paces.

ghost use Rattle.std.specs.Prelude.{◌≡◌, ◌<◌, ◌^◌, ◌++◌};
ghost use Rattle.sig_pace.specs.Prelude.{bytes_eq, decimal, length, IfOk, list_any};
ghost use Rattle.sig_pace.specs.inner.Names.{FindsNamed};

use itoa::Buffer;
use sig_base::{SigId, Signal, Text};
use std::alloc::{AllocError, Global};

/// A beginning and a number.
pub(crate) fn numbered(alloc: Global, beginning: &[u8], number: u32) -> Result<Text, AllocError>
    ensures { IfOk result (λ name. name ≡ beginning.now ++ decimal number) }
{
    let mut buffer = Buffer::new();
    let mut name = Vec::from_slice(alloc, beginning)?;
    name.extend_from_slice(buffer.format(number).as_bytes())?;
    Ok(Text::from(name))
}

/// The first of some signals that has the name of one of some others.
pub(crate) fn first_named(signals: &[Signal], others: &[Signal]) -> Option<SigId>
    requires { length signals.now < 2 ^ 32 }
    ensures { FindsNamed signals.now others.now result }
{
    for (number, signal) in signals.iter().enumerate() {
        if has_named(others, signal.name.as_bytes()) {
            return Some(SigId(number as u32));
        }
    }
    None
}

/// Whether a signal has this name.
fn has_named(signals: &[Signal], name: &[u8]) -> bool
    ensures { result ≡ list_any (λ signal. bytes_eq name.now signal.name) signals.now }
{
    signals.iter().any(|signal| name == signal.name.as_bytes())
}
