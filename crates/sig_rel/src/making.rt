//! The relation of a kernel: what is left to be met where each class and each boolean is its own
//! unknown.

ghost use Rattle.sig_rel.specs.Prelude.{ℕ, IfOk, IsStore, Keeps, IsValid};
ghost use Rattle.sig_rel.specs.Relations.{IsRelation};
ghost use Rattle.sig_rel.specs.Shares.{KeepsToShare};

use crate::answer::RelAnswer;
use crate::numbering::unknowns_by;
use crate::relations::Relation;
use crate::substitution::Columns;
use sig_clock::same_clock;
use sig_dd::Store;
use sig_kernel::Kernel;
use std::alloc::Global;

/// The abstract reactions of a kernel as one diagram. It is refused where the store has no room for
/// the nodes that it needs; older references of the store stay.
pub fn relation(alloc: Global, kernel: &Kernel, store: &mut Store) -> Result<Relation, RelAnswer>
    requires valid { IsValid kernel.now }
    ensures store { IsStore store.new }
    ensures kept { Keeps store.old store.new }
    ensures relation { IfOk result (λ relation. (count : ℕ) × IsRelation kernel.now count store.new.nodes relation) }
    ensures share { KeepsToShare kernel.now store.old store.new result }
{
    let _nodes = store.len();
    let least = same_clock(alloc, kernel)?;
    let unknowns = unknowns_by(alloc, kernel, &[])?;
    let mut columns = Columns::fresh(alloc, store, kernel.signals.as_slice().len())?;
    columns.own(store, least.as_slice(), &unknowns)?;
    let whole = columns.residue(store, kernel, least.as_slice())?;
    Ok(Relation {
        whole,
        present: unknowns.present,
        truth: unknowns.truth,
    })
}
