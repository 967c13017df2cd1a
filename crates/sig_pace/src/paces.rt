//! The signals of paces.

ghost use Rattle.std.specs.Prelude.{◌≡◌, ◌<◌, ◌^◌, length, IfOk};
ghost use Rattle.sig_pace.specs.Paced.{marks_from, paces_from, place_of};

use crate::names::numbered;
use sig_base::{Kind, Signal, Span};
use sig_kernel::Kernel;
use std::alloc::{AllocError, Global};

/// Where a signal is declared, or where its operator stands.
pub(crate) fn place_of(kernel: &Kernel, signal: u32) -> Span
    ensures { result ≡ place_of kernel.now signal }
{
    match kernel.signals.as_slice().get(signal as usize) {
        Some(signal) => signal.at,
        None => Span { line: 0, col: 0 },
    }
}

/// The paces of some signals.
pub(crate) fn paces_of(
    alloc: Global,
    kernel: &Kernel,
    least: &[u32],
) -> Result<Vec<Signal>, AllocError>
    requires { length least.now < 2 ^ 31 }
    ensures { IfOk result (λ paces. paces.items ≡ paces_from kernel.now 1 least.now) }
{
    let mut paces = Vec::with_capacity(alloc, least.len())?;
    for (number, m) in least.iter().enumerate() {
        paces.push(Signal {
            name: numbered(alloc, b"pace_", number as u32 + 1)?,
            kind: Kind::Boolean,
            cluster: 0,
            at: place_of(kernel, *m),
        })?;
    }
    Ok(paces)
}

/// The events at which the paces of some signals are true.
pub(crate) fn marks_of(
    alloc: Global,
    kernel: &Kernel,
    least: &[u32],
) -> Result<Vec<Signal>, AllocError>
    requires { length least.now < 2 ^ 31 }
    ensures { IfOk result (λ marks. marks.items ≡ marks_from kernel.now 1 least.now) }
{
    let mut marks = Vec::with_capacity(alloc, least.len())?;
    for (number, m) in least.iter().enumerate() {
        marks.push(Signal {
            name: numbered(alloc, b"#pace_", number as u32 + 1)?,
            kind: Kind::Event,
            cluster: 0,
            at: place_of(kernel, *m),
        })?;
    }
    Ok(marks)
}
