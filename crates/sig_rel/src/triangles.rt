//! Triangular kernels.

ghost use Rattle.std.specs.Prelude.{◌≡◌, ◌≢◌};
ghost use Rattle.sig_rel.specs.Prelude.{ℕ, IfOk, MatchOption, Err, IsValid};
ghost use Rattle.sig_rel.specs.Triangles.{AreClassesInOrder, IsTriangular};

use crate::answer::RelAnswer;
use crate::elements::classes_of;
use crate::placing::triangle_of;
use sig_clock::condition_set;
use sig_kernel::Kernel;
use std::alloc::Global;

/// The clock classes of a kernel, each by its least signal, in the order in which their presences
/// can be written out one after another, and None where there is no such order. Only memory can be
/// wanting.
pub fn triangle(alloc: Global, kernel: &Kernel) -> Result<Option<Vec<u32>>, RelAnswer>
    requires { IsValid kernel.now }
    ensures list { IfOk result (λ classes. MatchOption classes (IsTriangular kernel.now → ⊥)
        (λ classes. AreClassesInOrder kernel.now classes.items)) }
    ensures no_budget { (nodes : ℕ) → result ≢ Err (RelAnswer.Budget nodes) }
{
    let conditions = condition_set(alloc, kernel)?;
    match triangle_of(alloc, kernel, conditions.as_slice())? {
        Some(triangle) => Ok(Some(classes_of(alloc, triangle.list.as_slice())?)),
        None => Ok(None),
    }
}
