//! The least signals of the clock classes.

ghost use Rattle.std.specs.Prelude.{◌≡◌, ◌≤◌};
ghost use Rattle.sig_pace.specs.Prelude.{length, IfOk, IsValid, leaders_of};
ghost use Rattle.sig_pace.specs.inner.Leaders.{AreLeaders};

use sig_clock::{ClockBase, same_clock};
use sig_kernel::Kernel;
use std::alloc::{AllocError, Global};

/// The signals that are the least of their clock class, by number.
pub(crate) fn class_leaders(alloc: Global, kernel: &Kernel) -> Result<Vec<u32>, ClockBase>
    requires { IsValid kernel.now }
    ensures { IfOk result (λ leaders. AreLeaders kernel.now leaders.items) }
{
    let least = same_clock(alloc, kernel)?;
    let classes = least.as_slice();
    let leaders = leaders(alloc, classes)?;
    Ok(leaders)
}

/// The numbers that stand at their own places.
fn leaders(alloc: Global, least: &[u32]) -> Result<Vec<u32>, AllocError>
    requires { length least.now ≤ 512 }
    ensures { IfOk result (λ leaders. leaders.items ≡ leaders_of least.now) }
{
    let mut leaders = Vec::new(alloc);
    for (signal, class) in least.iter().enumerate() {
        if *class == signal as u32 {
            leaders.push(*class)?;
        }
    }
    Ok(leaders)
}
