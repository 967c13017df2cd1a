//! How many predecessors of each number are not taken yet, and the numbers that are ready: those whose
//! count is 0.

ghost use Rattle.std.specs.Prelude.{◌≡◌, ◌<◌, ◌≤◌, ◌∷◌, [], ℕ, IfOk, OnOk, All, length, map, slice_index_or};
ghost use Rattle.sig_graph.specs.inner.Counts.{AreFirst, Releases, occurs};

use crate::numbers::Numbers;
use std::alloc::{AllocError, Global};
use std::collections::BTreeSet;

/// To each number how many precede it.
pub(crate) fn counts_of(alloc: Global, graph: &[Numbers]) -> Result<Vec<usize>, AllocError>
    ensures { IfOk result (λ counts. counts.items ≡ map length graph.now) }
{
    graph
        .iter()
        .map(|predecessors| predecessors.as_slice().len())
        .collect(alloc)
}

/// The numbers that are ready at first: those whose count is 0.
pub(crate) fn ready_first(alloc: Global, counts: &[usize]) -> Result<BTreeSet<usize>, AllocError>
    ensures { IfOk result (AreFirst counts.now) }
{
    let mut ready = BTreeSet::new(alloc);
    for (number, count) in counts.iter().enumerate() {
        if *count == 0 {
            ready.insert(number)?;
        }
    }
    Ok(ready)
}

/// Lowers the counts of these numbers. One whose count comes to 0 is ready then.
pub(crate) fn release(
    numbers: &[usize],
    counts: &mut [usize],
    ready: &mut BTreeSet<usize>,
) -> Result<(), AllocError>
    requires within { All (λ number. number < length counts.old) numbers.now }
    requires enough { (number : ℕ) → occurs number numbers.now ≤ slice_index_or counts.old number 0 }
    ensures { OnOk result (Releases numbers.now counts.old counts.new ready.old ready.new) }
{
    for number in numbers {
        lower(*number, counts, ready)?;
    }
    Ok(())
}

/// Lowers the count of a number. It is ready then, where its count comes to 0.
fn lower(number: usize, counts: &mut [usize], ready: &mut BTreeSet<usize>) -> Result<(), AllocError>
    requires within { number < length counts.old }
    requires enough { 0 < slice_index_or counts.old number 0 }
    ensures { OnOk result (Releases (number ∷ []) counts.old counts.new ready.old ready.new) }
{
    counts[number] -= 1;
    if counts[number] == 0 {
        ready.insert(number)?;
    }
    Ok(())
}
