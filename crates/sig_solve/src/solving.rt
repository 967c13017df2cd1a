//! The clocks of a kernel.

ghost use Rattle.std.specs.Prelude.{◌≡◌};
ghost use Rattle.sig_solve.specs.Prelude.{IfErr, IfOk, HasClocks, AreClocks, IsStore, Keeps, IsValid};
ghost use Rattle.sig_solve.specs.Refusals.{IsRefusalOf, KeepsToShare, KeepsToTriangularShare};

use crate::answer::ClockAnswer;
use crate::general::solve_by_system;
use crate::triangular::solve_triangular;
use sig_clock::Clocks;
use sig_dd::Store;
use sig_kernel::Kernel;
use sig_rel::triangle;
use std::alloc::Global;

/// The clocks of a kernel, or the first reason why it has none: no reaction is possible but the
/// silent one, there is no root, a clock is not determined, or a condition is forced. It is refused
/// where the store has no room for the nodes that it needs; older references of the store stay.
pub fn solve(alloc: Global, kernel: &Kernel, store: &mut Store) -> Result<Clocks, ClockAnswer>
    requires valid { IsValid kernel.now }
    ensures store { IsStore store.new }
    ensures kept { Keeps store.old store.new }
    ensures clocks { IfOk result (λ clocks. HasClocks kernel.now
        × AreClocks kernel.now store.new.nodes clocks) }
    ensures refused { IfErr result (IsRefusalOf kernel.now) }
    ensures share { KeepsToShare kernel.now store.old store.new result }
    ensures triangular { KeepsToTriangularShare kernel.now store.old store.new result }
{
    // What holds of every store is known where one is asked.
    let _nodes = store.len();
    match triangle(alloc, kernel)? {
        Some(classes) => solve_triangular(alloc, kernel, classes.as_slice(), store),
        None => solve_by_system(alloc, kernel, store),
    }
}
