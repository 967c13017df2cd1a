//! How a refusal of a pass is told: with the names of its signals and their place.

ghost use Rattle.std.specs.Prelude.{◌≡◌};
ghost use Rattle.sig_back.specs.Prelude.{IfOk, IsRefusalOf};
ghost use Rattle.sig_back.specs.Answers.{HasNoRoomFor, IsRefusal, Tells};
ghost use Rattle.sig_back.specs.Faults.{first_place, name_at, said_of};

use crate::answer::BackAnswer;
use crate::fault::{BackFault, BackKind};
use sig_base::limits::NODES;
use sig_base::{SigId, Span, Text};
use sig_kernel::Kernel;
use sig_solve::ClockAnswer;
use std::alloc::{AllocError, Global};

/// The answer that tells that a rule is not met, with these signals, or that memory is wanting.
pub(crate) fn told(alloc: Global, kernel: &Kernel, kind: BackKind, signals: &[SigId]) -> BackAnswer
    ensures { Tells kernel.now kind signals.now result }
{
    match fault(alloc, kernel, kind, signals) {
        Ok(fault) => BackAnswer::Refused(fault),
        Err(_wanting) => BackAnswer::OutOfMemory,
    }
}

/// The answer that tells why a kernel has no clocks.
pub(crate) fn told_of_clocks(alloc: Global, kernel: &Kernel, answer: ClockAnswer) -> BackAnswer
    requires refused { IsRefusalOf kernel.now answer }
    requires room { HasNoRoomFor kernel.now answer }
    ensures { IsRefusal kernel.now result }
{
    match answer {
        ClockAnswer::Dead => told(alloc, kernel, BackKind::Dead, &[]),
        ClockAnswer::MissingRoot(x, y) => told(alloc, kernel, BackKind::MissingRoot, &[x, y]),
        ClockAnswer::Unsolved(x) => told(alloc, kernel, BackKind::Unsolved, &[x]),
        ClockAnswer::Pinned(b) => told(alloc, kernel, BackKind::Pinned, &[b]),
        ClockAnswer::Budget(_) => BackAnswer::Budget(NODES),
        ClockAnswer::OutOfMemory => BackAnswer::OutOfMemory,
    }
}

/// The fault that a rule is not met, said of these signals.
fn fault(
    alloc: Global,
    kernel: &Kernel,
    kind: BackKind,
    signals: &[SigId],
) -> Result<BackFault, AllocError>
    ensures { IfOk result (λ fault. fault ≡ said_of kernel.now kind signals.now) }
{
    let mut names = Vec::new(alloc);
    for x in signals {
        names.push(name(alloc, kernel, *x)?)?;
    }
    let at = first_place(kernel, signals);
    Ok(BackFault { kind, names, at })
}

/// The name of a signal.
fn name(alloc: Global, kernel: &Kernel, x: SigId) -> Result<Text, AllocError>
    ensures { IfOk result (λ name. name ≡ name_at kernel.now x) }
{
    match kernel.signals.as_slice().get(x.0 as usize) {
        Some(signal) => Text::from_bytes(alloc, signal.name.as_bytes()),
        None => Text::from_bytes(alloc, &[]),
    }
}

/// The place of the first of these signals, where there is one.
fn first_place(kernel: &Kernel, signals: &[SigId]) -> Option<Span>
    ensures { result ≡ first_place kernel.now signals.now }
{
    let x = signals.first()?;
    let signal = kernel.signals.as_slice().get(x.0 as usize)?;
    Some(signal.at)
}
