//! Signals with the reactions in which they are present.

ghost use Rattle.std.specs.Prelude.{◌≡◌};
ghost use Rattle.sig_pace.specs.Prelude.{ℕ, length, IfOk, Contains, IsSignal, IsStore, Keeps, Share, refusal};
ghost use Rattle.sig_pace.specs.inner.Asked.{AreCandidates, IsAskedIn, variables_of};
ghost use Rattle.sig_pace.specs.inner.Tops.{signals_of};

use crate::asked::Asked;
use sig_dd::{DdAnswer, Ref, Store};
use std::alloc::Global;

/// A signal, with the truths that are the reactions in which it is present.
#[derive(Clone, Copy)]
pub(crate) struct Candidate {
    pub(crate) signal: u32,
    pub(crate) reactions: Ref,
}

/// Some signals with their reactions.
pub(crate) fn candidates_of(
    alloc: Global,
    asked: &Asked,
    signals: &[u32],
    store: &mut Store,
) -> Result<Vec<Candidate>, DdAnswer>
    requires asked { IsAskedIn store.old asked.now }
    requires signals { (x : ℕ) → Contains signals.now x → IsSignal asked.now.kernel.now x }
    ensures store { IsStore store.new }
    ensures kept { Keeps store.old store.new }
    ensures signals { IfOk result (λ candidates. signals_of candidates.items ≡ signals.now) }
    ensures value { IfOk result (λ candidates.
        AreCandidates store.new.nodes asked.now candidates.items) }
    ensures share { Share (length signals.now) (variables_of asked.now.system)
        store.old store.new (refusal result) }
{
    let mut candidates = Vec::new(alloc);
    for signal in signals {
        let reactions = store.conj(asked.solutions, asked.presence(*signal))?;
        candidates.push(Candidate {
            signal: *signal,
            reactions,
        })?;
    }
    Ok(candidates)
}
