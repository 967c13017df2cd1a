//! Pinned conditions.

ghost use Rattle.std.specs.Prelude.{◌≡◌, ◌+◌, ◌*◌};
ghost use Rattle.sig_solve.specs.Prelude.{true, length, IfOk, AreInOrder, is_condition, IsStore, Keeps, Share, refusal};
ghost use Rattle.sig_solve.specs.inner.Answers.{FindsPinned};
ghost use Rattle.sig_solve.specs.inner.Asked.{AreHalves, IsAskedIn, variables_of};

use crate::asked::Asked;
use crate::known::{Known, known_of};
use sig_base::SigId;
use sig_dd::{DdAnswer, Ref, Store};
use std::alloc::Global;

/// The first pinned condition, if one is pinned. The conditions are given in the condition order.
pub(crate) fn find_pinned(
    alloc: Global,
    asked: &Asked,
    store: &mut Store,
    conditions: &[SigId],
) -> Result<Option<SigId>, DdAnswer>
    requires asked { IsAskedIn store.old asked.now }
    requires conditions { AreInOrder asked.now.frame.kernel.now conditions.now }
    ensures store { IsStore store.new }
    ensures kept { Keeps store.old store.new }
    ensures value { IfOk result (FindsPinned asked.now.frame.kernel.now conditions.now) }
    ensures share { Share ((5 + 2 * asked.now.system.variables) * length conditions.now)
        (variables_of asked.now.system) store.old store.new (refusal result) }
{
    for (place, condition) in conditions.iter().enumerate() {
        let earlier = Vec::from_slice(alloc, &conditions[..place])?;
        let known = known_of(alloc, &asked.system, earlier)?;
        let (high, low) = halves(asked, store, &known, *condition)?;
        if high != low {
            return Ok(Some(*condition));
        }
    }
    Ok(None)
}

/// What agrees on known conditions with a reaction in which a condition is true, and with one in
/// which it is false.
fn halves(
    asked: &Asked,
    store: &mut Store,
    known: &Known,
    condition: SigId,
) -> Result<(Ref, Ref), DdAnswer>
    requires asked { IsAskedIn store.old asked.now }
    requires condition { is_condition asked.now.frame.kernel.now condition.0 ≡ true }
    ensures store { IsStore store.new }
    ensures kept { Keeps store.old store.new }
    ensures value { IfOk result (λ found.
        AreHalves store.new.nodes asked.now known.now.forgotten.items condition.0 found.0 found.1) }
    ensures share { Share (5 + 2 * asked.now.system.variables) (variables_of asked.now.system)
        store.old store.new (refusal result) }
{
    let forgotten = known.forgotten.as_slice();
    let high = asked.where_true(store, condition.0, forgotten)?;
    let low = asked.where_false(store, condition.0, forgotten)?;
    Ok((high, low))
}
