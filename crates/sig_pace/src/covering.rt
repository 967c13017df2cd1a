//! Signals whose presences lie within those of lesser ones, whatever is left to be met.

ghost use Rattle.std.specs.Prelude.{◌≡◌, ◌≢◌};
ghost use Rattle.sig_pace.specs.Prelude.{ℕ, true, IfOk, Err, Contains, IsSignal};
ghost use Rattle.sig_pace.specs.inner.Asked.{IsAskedIn};
ghost use Rattle.sig_pace.specs.inner.Leaders.{AreIncreasing};
ghost use Rattle.sig_pace.specs.inner.Tops.{IsBelowOne, IsCover};

use crate::asked::Asked;
use sig_dd::{DdAnswer, Store};
use std::alloc::Global;

/// Of some signals by number, those that are not covered by an earlier one.
pub(crate) fn uncovered(
    alloc: Global,
    asked: &Asked,
    signals: &[u32],
    store: &Store,
) -> Result<Vec<u32>, DdAnswer>
    requires asked { IsAskedIn store.now asked.now }
    requires signals { (x : ℕ) → Contains signals.now x → IsSignal asked.now.kernel.now x }
    requires order { AreIncreasing signals.now }
    ensures value { IfOk result (λ found. IsCover asked.now.kernel.now signals.now found.items) }
    ensures no_budget { (n : ℕ) → result ≢ Err (DdAnswer.Budget n) }
{
    let mut found = Vec::new(alloc);
    for signal in signals {
        if !is_covered(asked, found.as_slice(), *signal, store)? {
            found.push(*signal)?;
        }
    }
    Ok(found)
}

/// Whether one of some signals is present wherever this one is.
fn is_covered(asked: &Asked, others: &[u32], signal: u32, store: &Store) -> Result<bool, DdAnswer>
    requires asked { IsAskedIn store.now asked.now }
    requires others { (x : ℕ) → Contains others.now x → IsSignal asked.now.kernel.now x }
    requires signal { IsSignal asked.now.kernel.now signal }
    ensures value { IfOk result (λ covered. covered ≡ true
        → IsBelowOne asked.now.kernel.now signal others.now) }
    ensures no_budget { (n : ℕ) → result ≢ Err (DdAnswer.Budget n) }
{
    let present = asked.presence(signal);
    for other in others {
        if store.within(present, asked.presence(*other))? {
            return Ok(true);
        }
    }
    Ok(false)
}
