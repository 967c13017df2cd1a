//! Conditions that are known.

ghost use Rattle.std.specs.Prelude.{◌≡◌, ◌==◌};
ghost use Rattle.sig_solve.specs.Prelude.{IfOk, list_any};
ghost use Rattle.sig_solve.specs.inner.Asked.{AreProposed, ForgetsAllBut};

use sig_base::SigId;
use sig_rel::System;
use std::alloc::{AllocError, Global};

/// Conditions, and to each number whether it is forgotten: each variable is but their proposals.
#[derive(Drop)]
pub(crate) struct Known {
    pub(crate) conditions: Vec<SigId>,
    pub(crate) forgotten: Vec<bool>,
}

/// These conditions as known ones.
pub(crate) fn known_of(
    alloc: Global,
    system: &System,
    conditions: Vec<SigId>,
) -> Result<Known, AllocError>
    requires { AreProposed system.now }
    ensures { IfOk result (λ known. (known.conditions.items ≡ conditions.items)
        × ForgetsAllBut system.now conditions.items known.forgotten.items) }
{
    let forgotten = forgotten_but(alloc, system, conditions.as_slice())?;
    Ok(Known {
        conditions,
        forgotten,
    })
}

/// All variables but the proposals of known conditions.
fn forgotten_but(alloc: Global, system: &System, known: &[SigId]) -> Result<Vec<bool>, AllocError>
    requires { AreProposed system.now }
    ensures { IfOk result (λ forgotten. ForgetsAllBut system.now known.now forgotten.items) }
{
    let proposals = system.proposals.as_slice();
    let end = system.first as usize + system.variables as usize;
    let mut forgotten = vec![in alloc; true; end]?;
    for (place, condition) in system.conditions.as_slice().iter().enumerate() {
        if is_among(known, *condition) {
            forgotten[proposals[place] as usize] = false;
        }
    }
    Ok(forgotten)
}

/// Whether a condition is among known ones.
fn is_among(known: &[SigId], condition: SigId) -> bool
    ensures { result ≡ list_any (λ other. other.0 == condition.0) known.now }
{
    known.iter().any(|other| other.0 == condition.0)
}
