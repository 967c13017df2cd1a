//! Which kernels need paces.

ghost use Rattle.std.specs.Prelude.{◌≡◌, ◌≢◌};
ghost use Rattle.sig_pace.specs.Prelude.{ℕ, true, List, Err, IfErr, IfOk, MatchOption, HasRoot, IsStore, Keeps, IsValid};
ghost use Rattle.sig_pace.specs.Paced.{GetsPaces, NeedsNoPaces};
ghost use Rattle.sig_pace.specs.Refusals.{IsPaceRefusal, KeepsToPaceShare};

use crate::answer::PaceAnswer;
use crate::maximal::maximal_clocks;
use crate::paced::with_paces;
use sig_dd::Store;
use sig_kernel::Kernel;
use sig_rel::{RelAnswer, triangle};
use std::alloc::Global;

/// The paced kernel of a kernel that needs paces. A triangular kernel has a root, and so has one with
/// one maximal clock; one with none has no reaction but the silent one.
pub(crate) fn paced_where_needed(
    alloc: Global,
    kernel: &Kernel,
    store: &mut Store,
) -> Result<Option<Kernel>, PaceAnswer>
    requires valid { IsValid kernel.now }
    ensures store { IsStore store.new }
    ensures kept { Keeps store.old store.new }
    ensures paced { IfOk result (λ found. MatchOption found (NeedsNoPaces kernel.now)
        (λ paced. (least : List ℕ) × GetsPaces kernel.now paced least)) }
    ensures refused { IfErr result (IsPaceRefusal kernel.now) }
    ensures share { KeepsToPaceShare kernel.now store.old store.new result }
{
    // What holds of every store is known where one is asked.
    let _nodes = store.len();
    if is_triangular(alloc, kernel)? {
        return Ok(None);
    }
    let maxima = maximal_clocks(alloc, kernel, store)?;
    let least = maxima.as_slice();
    if least.len() < 2 {
        return Ok(None);
    }
    let paced = with_paces(alloc, kernel, least)?;
    Ok(Some(paced))
}

/// Whether a kernel is triangular: then it has a root.
fn is_triangular(alloc: Global, kernel: &Kernel) -> Result<bool, RelAnswer>
    requires { IsValid kernel.now }
    ensures root { IfOk result (λ is. is ≡ true → HasRoot kernel.now) }
    ensures no_budget { (nodes : ℕ) → result ≢ Err (RelAnswer.Budget nodes) }
{
    let found = triangle(alloc, kernel)?;
    match found {
        Some(_classes) => Ok(true),
        None => Ok(false),
    }
}
