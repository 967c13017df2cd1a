//! The equations that tie paces to clocks.

ghost use Rattle.std.specs.Prelude.{◌≡◌, ◌+◌, ◌<◌, ◌^◌, ◌++◌, ◌∷◌};
ghost use Rattle.sig_pace.specs.Prelude.{[], ℕ, pos, suc, length, Contains, OnOk, SigId, Sync, WhenConst};
ghost use Rattle.sig_pace.specs.Paced.{marked_from, others_together, place_of, together_from};
ghost use Rattle.sig_pace.specs.Renumbering.{moved};

use crate::paces::place_of;
use crate::renumbering::Room;
use sig_base::SigId;
use sig_kernel::{Equation, Form, Kernel};
use std::alloc::AllocError;

/// Adds that the first pace comes with each other one.
pub(crate) fn add_together(
    equations: &mut Vec<Equation>,
    kernel: &Kernel,
    least: &[u32],
) -> Result<(), AllocError>
    requires { kernel.now.inputs + length least.now < 2 ^ 31 }
    ensures { OnOk result (equations.new.items
        ≡ equations.old.items ++ others_together kernel.now least.now) }
{
    match least.split_first() {
        Some((_, others)) => add_others(equations, kernel, others),
        None => Ok(()),
    }
}

/// Adds that the first pace comes with those of these other signals.
fn add_others(
    equations: &mut Vec<Equation>,
    kernel: &Kernel,
    others: &[u32],
) -> Result<(), AllocError>
    requires { kernel.now.inputs + 1 + length others.now < 2 ^ 31 }
    ensures { OnOk result (equations.new.items
        ≡ equations.old.items ++ together_from kernel.now (suc kernel.now.inputs) others.now) }
{
    for (number, m) in others.iter().enumerate() {
        equations.push(Equation {
            form: Form::Sync(
                SigId(kernel.inputs),
                SigId(kernel.inputs + 1 + number as u32),
            ),
            at: place_of(kernel, *m),
        })?;
    }
    Ok(())
}

/// Adds that each clock is present where its pace is true.
pub(crate) fn add_marked(
    equations: &mut Vec<Equation>,
    kernel: &Kernel,
    room: Room,
    least: &[u32],
) -> Result<(), AllocError>
    requires room { room.signals ≡ length kernel.now.signals }
    requires within { (m : ℕ) → Contains least.now m → m < length kernel.now.signals }
    requires few { room.signals + room.more + length least.now < 2 ^ 31 }
    requires inputs { room.inputs + length least.now < 2 ^ 31 }
    ensures { OnOk result (equations.new.items ≡ equations.old.items
        ++ marked_from kernel.now (moved room.inputs room.more) room.inputs
        (room.signals + room.more) least.now) }
{
    for (number, m) in least.iter().enumerate() {
        let number = number as u32;
        let pace = SigId(room.inputs + number);
        let mark = SigId(room.signals + room.more + number);
        add_mark(equations, kernel, room, pace, mark, *m)?;
    }
    Ok(())
}

/// Adds that a mark is present where a pace is true, and comes with a signal.
fn add_mark(
    equations: &mut Vec<Equation>,
    kernel: &Kernel,
    room: Room,
    pace: SigId,
    mark: SigId,
    m: u32,
) -> Result<(), AllocError>
    requires within { m < room.signals }
    requires few { room.signals + room.more < 2 ^ 32 }
    ensures { OnOk result (equations.new.items ≡ equations.old.items
        ++ marked_from kernel.now (moved room.inputs room.more) pace.0 mark.0 (m ∷ [])) }
{
    let at = place_of(kernel, m);
    equations.push(Equation {
        form: Form::WhenConst(mark, 1, pace),
        at,
    })?;
    equations.push(Equation {
        form: Form::Sync(room.place(SigId(m)), mark),
        at,
    })?;
    Ok(())
}
