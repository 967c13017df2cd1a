//! A kernel with its clock classes.

ghost use Rattle.std.specs.Prelude.{◌≡◌, ◌==◌, ◌≤◌};
ghost use Rattle.sig_solve.specs.Prelude.{length, filter, slice_index, IfOk, IsValid};
ghost use Rattle.sig_solve.specs.Frames.{IsFrame, leaders_of};

use sig_clock::{ClockBase, same_clock};
use sig_kernel::Kernel;
use std::alloc::{AllocError, Global};

/// A kernel with the least signal of each signal's clock class, and these least signals.
#[derive(Drop)]
pub(crate) struct Frame<'a> {
    pub(crate) kernel: &'a Kernel,
    pub(crate) least: Vec<u32>,
    pub(crate) leaders: Vec<u32>,
}

/// The frame of a kernel.
pub(crate) fn frame_of(alloc: Global, kernel: &Kernel) -> Result<Frame<'_>, ClockBase>
    requires { IsValid kernel.now }
    ensures { IfOk result (λ frame. (frame.kernel.now ≡ kernel.now) × IsFrame frame) }
{
    let least = same_clock(alloc, kernel)?;
    let leaders = leaders(alloc, least.as_slice())?;
    Ok(Frame {
        kernel,
        least,
        leaders,
    })
}

/// The signals that are the least of their class.
fn leaders(alloc: Global, least: &[u32]) -> Result<Vec<u32>, AllocError>
    requires { length least.now ≤ 512 }
    ensures { IfOk result (λ leaders. leaders.items ≡ leaders_of least.now) }
{
    let mut leaders = Vec::new(alloc);
    for (signal, class) in least.iter().enumerate() {
        if *class == signal as u32 {
            leaders.push(*class)?;
        }
    }
    Ok(leaders)
}
