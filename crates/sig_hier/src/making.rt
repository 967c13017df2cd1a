//! The hierarchy of clocks.

ghost use Rattle.std.specs.Prelude.{◌<◌, ◌≤◌, ◌^◌, length, IfOk};
ghost use Rattle.sig_hier.specs.Trees.{AreHeld, AreParents, HaveKernel, IsParentIfAny, IsTree};

use crate::answer::TreeAnswer;
use crate::trees::Tree;
use sig_clock::Clocks;
use sig_dd::{Ref, Store};
use std::alloc::Global;

/// The hierarchy of the clocks of a kernel, whose guards the store holds. Only memory can be wanting.
pub fn tree(alloc: Global, clocks: &Clocks, store: &Store) -> Result<Tree, TreeAnswer>
    requires { HaveKernel store.now.nodes clocks.now }
    ensures { IfOk result (IsTree store.now.nodes clocks.now) }
{
    let parent = parents(alloc, clocks.guard.as_slice(), store)?;
    Ok(Tree { parent })
}

/// The parent of each class, where it has one.
pub(crate) fn parents(
    alloc: Global,
    guards: &[Ref],
    store: &Store,
) -> Result<Vec<Option<u32>>, TreeAnswer>
    requires fits { length guards.now ≤ 2 ^ 32 }
    requires held { AreHeld store.now.nodes guards.now }
    ensures { IfOk result (λ parents. AreParents store.now.nodes guards.now (length guards.now) parents.items) }
{
    let mut parents = Vec::new(alloc);
    for class in 0..guards.len() {
        parents.push(parent_of(store, guards, class)?)?;
    }
    Ok(parents)
}

/// The last class before a class whose guard its guard implies, where there is one.
fn parent_of(store: &Store, guards: &[Ref], class: usize) -> Result<Option<u32>, TreeAnswer>
    requires class { class < length guards.now }
    requires fits { class < 2 ^ 32 }
    requires held { AreHeld store.now.nodes guards.now }
    ensures { IfOk result (IsParentIfAny store.now.nodes guards.now class) }
{
    for other in (0..class).rev() {
        if store.within(guards[class], guards[other])? {
            return Ok(Some(other as u32));
        }
    }
    Ok(None)
}
