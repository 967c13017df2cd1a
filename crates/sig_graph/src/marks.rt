//! Marks on the numbers of a graph.

ghost use Rattle.std.specs.Prelude.{◌≡◌, IfOk, replicate, false};

use std::alloc::{AllocError, Global};

/// So many numbers of which none is marked.
pub(crate) fn unmarked(alloc: Global, count: usize) -> Result<Vec<bool>, AllocError>
    ensures { IfOk result (λ marks. marks.items ≡ replicate count false) }
{
    vec![in alloc; false; count]
}
