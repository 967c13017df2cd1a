//! Roots, and what shows that there is none.

ghost use Rattle.std.specs.Prelude.{◌≡◌, ◌≢◌};
ghost use Rattle.sig_solve.specs.Prelude.{ℕ, MatchOption, IfErr, IfOk, Err, HasNoRoot, IsAlive, IsLeast, IsMissingRoot, IsRoot, Holds, IsStore, Keeps, Share, refusal};
ghost use Rattle.sig_solve.specs.inner.Asked.{IsAskedIn, IsMet, variables_of};
ghost use Rattle.sig_solve.specs.Refusals.{IsRefusalOf, store_refusal};

use crate::answer::ClockAnswer;
use crate::asked::Asked;
use sig_base::SigId;
use sig_dd::{DdAnswer, Ref, Store};

/// A root of a kernel that has one.
pub(crate) fn root_of(asked: &Asked, store: &mut Store) -> Result<SigId, ClockAnswer>
    requires { IsAskedIn store.old asked.now }
    ensures store { IsStore store.new }
    ensures kept { Keeps store.old store.new }
    ensures value { IfOk result (λ root. IsRoot asked.now.frame.kernel.now root.0
        × IsAlive asked.now.frame.kernel.now) }
    ensures refused { IfErr result (IsRefusalOf asked.now.frame.kernel.now) }
    ensures share { Share 2 (variables_of asked.now.system) store.old store.new
        (store_refusal result) }
{
    if !store.overlap(asked.solutions, asked.solutions)? {
        return Err(ClockAnswer::Dead);
    }
    match find_root(asked, store)? {
        Some(root) => Ok(root),
        None => {
            let (x, y) = missing_root(asked, store)?;
            Err(ClockAnswer::MissingRoot(x, y))
        }
    }
}

/// A root, if there is one: it is present at each solution.
fn find_root(asked: &Asked, store: &Store) -> Result<Option<SigId>, DdAnswer>
    requires { IsAskedIn store.now asked.now }
    ensures value { IfOk result (λ found. MatchOption found (HasNoRoot asked.now.frame.kernel.now)
        (λ root. IsRoot asked.now.frame.kernel.now root.0)) }
    ensures no_budget { (n : ℕ) → result ≢ Err (DdAnswer.Budget n) }
{
    for leader in asked.frame.leaders.as_slice() {
        if store.within(asked.solutions, asked.presence(*leader))? {
            return Ok(Some(SigId(*leader)));
        }
    }
    Ok(None)
}

/// The signals that show that there is no root.
fn missing_root(asked: &Asked, store: &mut Store) -> Result<(SigId, SigId), DdAnswer>
    requires asked { IsAskedIn store.old asked.now }
    requires alive { IsAlive asked.now.frame.kernel.now }
    requires none { HasNoRoot asked.now.frame.kernel.now }
    ensures store { IsStore store.new }
    ensures kept { Keeps store.old store.new }
    ensures value { IfOk result (λ found.
        IsMissingRoot asked.now.frame.kernel.now found.0.0 found.1.0) }
    ensures share { Share 2 (variables_of asked.now.system) store.old store.new (refusal result) }
{
    let x = first_met(asked, asked.solutions, store)?;
    let absent = store.negate(asked.presence(x.0))?;
    let rest = store.conj(asked.solutions, absent)?;
    let y = first_met(asked, rest, store)?;
    Ok((x, y))
}

/// The first signal that is present somewhere in a part of the solutions.
fn first_met(asked: &Asked, part: Ref, store: &Store) -> Result<SigId, DdAnswer>
    requires asked { IsAskedIn store.now asked.now }
    requires held { Holds store.now.nodes part }
    requires some { ((s : ℕ) → (IsMet store.now.nodes asked.now part s → ⊥)) → ⊥ }
    ensures value { IfOk result (λ x. IsLeast (IsMet store.now.nodes asked.now part) x.0) }
    ensures no_budget { (n : ℕ) → result ≢ Err (DdAnswer.Budget n) }
{
    for leader in asked.frame.leaders.as_slice() {
        if store.overlap(part, asked.presence(*leader))? {
            return Ok(SigId(*leader));
        }
    }
    unreachable!()
}
