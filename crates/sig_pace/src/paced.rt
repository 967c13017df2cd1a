//! The paced kernel of a kernel that needs paces.

ghost use Rattle.std.specs.Prelude.{◌≡◌, ◌≢◌, ◌≤◌, ◌<◌, ◌↔◌, ◌+◌, ◌++◌};
ghost use Rattle.sig_pace.specs.Prelude.{ℕ, drop, length, map, take, Contains, Err, IfErr, IfOk, IsTrue, OnOk, SIGNALS, IsValid};
ghost use Rattle.sig_pace.specs.inner.Names.{FindsNamed};
ghost use Rattle.sig_pace.specs.Paced.{GetsPaces, IsTaken, NeedsPaces, marked_from, marks_from, others_together, paced_kernel, paces_from};
ghost use Rattle.sig_pace.specs.Refusals.{IsPaceRefusal};
ghost use Rattle.sig_pace.specs.Renumbering.{moved, renumbered_equation};

use crate::answer::PaceAnswer;
use crate::names::first_named;
use crate::paces::{marks_of, paces_of};
use crate::renumbering::Room;
use crate::ties::{add_marked, add_together};
use sig_base::limits::SIGNALS;
use sig_base::{SigId, Signal, Text};
use sig_kernel::{Equation, Equations, Kernel, Signals};
use std::alloc::{AllocError, Global};

/// The paced kernel for the clocks of these least signals, unless a name is taken or there would be
/// too many signals.
pub(crate) fn with_paces(
    alloc: Global,
    kernel: &Kernel,
    least: &[u32],
) -> Result<Kernel, PaceAnswer>
    requires valid { IsValid kernel.now }
    requires needs { NeedsPaces kernel.now least.now }
    ensures paced { IfOk result (λ paced. GetsPaces kernel.now paced least.now) }
    ensures refused { IfErr result (IsPaceRefusal kernel.now) }
    ensures no_budget { (n : ℕ) → result ≢ Err (PaceAnswer.Budget n) }
{
    let paces = paces_of(alloc, kernel, least)?;
    let paces = paces.as_slice();
    match taken_name(kernel, paces) {
        Some(signal) => Err(PaceAnswer::NameTaken(signal)),
        None => with_free_names(alloc, kernel, least, paces),
    }
}

/// The first declared signal that has the name of a pace.
fn taken_name(kernel: &Kernel, paces: &[Signal]) -> Option<SigId>
    requires { IsValid kernel.now }
    ensures { FindsNamed (take kernel.now.declared kernel.now.signals) paces.now result }
{
    let (declared, _) = kernel.signals.as_slice().split_at(kernel.declared as usize);
    first_named(declared, paces)
}

/// The paced kernel where no name is taken, unless there would be too many signals.
fn with_free_names(
    alloc: Global,
    kernel: &Kernel,
    least: &[u32],
    paces: &[Signal],
) -> Result<Kernel, PaceAnswer>
    requires valid { IsValid kernel.now }
    requires needs { NeedsPaces kernel.now least.now }
    requires free { (signal : ℕ) → IsTaken kernel.now least.now signal → ⊥ }
    requires paces { paces.now ≡ paces_from kernel.now 1 least.now }
    ensures paced { IfOk result (λ paced. GetsPaces kernel.now paced least.now) }
    ensures refused { IfErr result (IsPaceRefusal kernel.now) }
    ensures no_budget { (n : ℕ) → result ≢ Err (PaceAnswer.Budget n) }
{
    if are_too_many(kernel, least) {
        return Err(PaceAnswer::TooManySignals(SIGNALS));
    }
    let paced = kernel_with(alloc, kernel, least, paces)?;
    Ok(paced)
}

/// Whether there would be too many signals.
fn are_too_many(kernel: &Kernel, least: &[u32]) -> bool
    requires valid { IsValid kernel.now }
    requires few { length least.now ≤ 512 }
    ensures { IsTrue result
        ↔ (SIGNALS < length kernel.now.signals + (length least.now + length least.now)) }
{
    let signals = kernel.signals.as_slice().len();
    signals + least.len() + least.len() > SIGNALS as usize
}

/// The kernel with these paces.
fn kernel_with(
    alloc: Global,
    kernel: &Kernel,
    least: &[u32],
    paces: &[Signal],
) -> Result<Kernel, AllocError>
    requires valid { IsValid kernel.now }
    requires few { length least.now ≤ 512 }
    requires within { (m : ℕ) → Contains least.now m → m < length kernel.now.signals }
    requires paces { paces.now ≡ paces_from kernel.now 1 least.now }
    ensures { IfOk result (λ paced. paced ≡ paced_kernel kernel.now least.now) }
{
    let more = least.len() as u32;
    let signals = signals_with(alloc, kernel, least, paces)?;
    let equations = equations_with(alloc, kernel, least)?;
    Ok(Kernel {
        signals: Signals::from(signals),
        equations: Equations::from(equations),
        inputs: kernel.inputs + more,
        outputs: kernel.outputs,
        declared: kernel.declared + more,
    })
}

/// The signals with these paces, and with their marks.
fn signals_with(
    alloc: Global,
    kernel: &Kernel,
    least: &[u32],
    paces: &[Signal],
) -> Result<Vec<Signal>, AllocError>
    requires inputs { kernel.now.inputs ≤ length kernel.now.signals }
    requires few { length least.now ≤ 512 }
    ensures { IfOk result (λ signals. signals.items ≡ take kernel.now.inputs kernel.now.signals
        ++ (paces.now ++ (drop kernel.now.inputs kernel.now.signals
        ++ marks_from kernel.now 1 least.now))) }
{
    let (inputs, others) = kernel.signals.as_slice().split_at(kernel.inputs as usize);
    let marks = marks_of(alloc, kernel, least)?;
    let mut signals = Vec::new(alloc);
    add_copies(alloc, &mut signals, inputs)?;
    add_copies(alloc, &mut signals, paces)?;
    add_copies(alloc, &mut signals, others)?;
    add_copies(alloc, &mut signals, marks.as_slice())?;
    Ok(signals)
}

/// Adds copies of signals.
fn add_copies(alloc: Global, signals: &mut Vec<Signal>, others: &[Signal]) -> Result<(), AllocError>
    ensures { OnOk result (signals.new.items ≡ signals.old.items ++ others.now) }
{
    for other in others {
        signals.push(Signal {
            name: Text::from_bytes(alloc, other.name.as_bytes())?,
            kind: other.kind,
            cluster: other.cluster,
            at: other.at,
        })?;
    }
    Ok(())
}

/// The equations with those of paces.
fn equations_with(
    alloc: Global,
    kernel: &Kernel,
    least: &[u32],
) -> Result<Vec<Equation>, AllocError>
    requires valid { IsValid kernel.now }
    requires few { length least.now ≤ 512 }
    requires within { (m : ℕ) → Contains least.now m → m < length kernel.now.signals }
    ensures { IfOk result (λ equations. equations.items
        ≡ map (renumbered_equation (moved kernel.now.inputs (length least.now))) kernel.now.equations
        ++ (others_together kernel.now least.now
        ++ marked_from kernel.now (moved kernel.now.inputs (length least.now)) kernel.now.inputs
        (length kernel.now.signals + length least.now) least.now)) }
{
    let room = Room {
        signals: kernel.signals.as_slice().len() as u32,
        inputs: kernel.inputs,
        more: least.len() as u32,
    };
    let mut equations = moved_equations(alloc, room, kernel)?;
    add_together(&mut equations, kernel, least)?;
    add_marked(&mut equations, kernel, room, least)?;
    Ok(equations)
}

/// The old equations over the signals where they stand now.
fn moved_equations(alloc: Global, room: Room, kernel: &Kernel) -> Result<Vec<Equation>, AllocError>
    requires valid { IsValid kernel.now }
    requires room { room.signals ≡ length kernel.now.signals }
    requires few { room.more ≤ 512 }
    ensures { IfOk result (λ equations. equations.items
        ≡ map (renumbered_equation (moved room.inputs room.more)) kernel.now.equations) }
{
    let mut moved = Vec::new(alloc);
    for equation in kernel.equations.as_slice() {
        moved.push(room.equation(alloc, equation)?)?;
    }
    Ok(moved)
}
