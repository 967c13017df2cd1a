//! The paced kernel.

ghost use Rattle.std.specs.Prelude.{◌<◌, ◌^◌, ◌⊎◌, ◌≡◌};
ghost use Rattle.sig_pace.specs.Prelude.{ℕ, List, length, IfErr, IfOk, HasRoot, IsDead, IsStore, Keeps, IsValid};
ghost use Rattle.sig_pace.specs.Paced.{GetsPaces, IsPaced};
ghost use Rattle.sig_pace.specs.Refusals.{IsPaceRefusal, KeepsToPaceShare};
ghost use Rattle.sig_pace.specs.Restriction.{HasTracesOf};

use crate::answer::PaceAnswer;
use crate::laws::{
    paced_kernels_are_valid, paced_kernels_have_a_root, paced_kernels_have_the_old_traces,
};
use crate::needing::paced_where_needed;
use sig_dd::Store;
use sig_kernel::Kernel;
use std::alloc::Global;

/// A kernel that has a root, or no reaction but the silent one, as it is; another one with a boolean
/// input for each maximal clock, behind the old inputs, that says whether the clock is present. The
/// traces of the paced kernel, without the paces, are those of the kernel handed in. It is refused
/// where a declared signal has the name of a pace, where there would be more than 512 signals, or
/// where the store has no room for the nodes that it needs; older references of the store stay.
pub fn pace(alloc: Global, kernel: Kernel, store: &mut Store) -> Result<Kernel, PaceAnswer>
    requires valid { IsValid kernel }
    requires few { length kernel.equations < 2 ^ 31 }
    ensures store { IsStore store.new }
    ensures kept { Keeps store.old store.new }
    ensures paced { IfOk result (IsPaced kernel) }
    ensures valid { IfOk result IsValid }
    ensures root { IfOk result (λ paced. HasRoot paced ⊎ IsDead kernel) }
    ensures traces { (least : List ℕ) → IfOk result (λ paced. GetsPaces kernel paced least → HasTracesOf kernel least) }
    ensures refused { IfErr result (IsPaceRefusal kernel) }
    ensures share { KeepsToPaceShare kernel store.old store.new result }
{
    paced_kernels_are_valid();
    paced_kernels_have_a_root();
    paced_kernels_have_the_old_traces();
    let found = paced_where_needed(alloc, &kernel, store)?;
    match found {
        Some(paced) => Ok(paced),
        None => Ok(kernel),
    }
}
