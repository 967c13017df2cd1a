//! The tops among some signals: those below no other one, each clock by its least signal.

ghost use Rattle.std.specs.Prelude.{◌≢◌, ◌↔◌};
ghost use Rattle.sig_pace.specs.Prelude.{ℕ, IfOk, Err, IsTrue, IsSignal};
ghost use Rattle.sig_pace.specs.inner.Asked.{AreCandidates, IsCandidate};
ghost use Rattle.sig_pace.specs.inner.Tops.{AddsTop, AreByNumber, AreNotBelow, AreTops, IsBelowCandidate};

use crate::asked::Asked;
use crate::candidates::Candidate;
use sig_dd::{DdAnswer, Store};
use std::alloc::Global;

/// The tops among signals by number.
pub(crate) fn tops_among(
    alloc: Global,
    asked: &Asked,
    candidates: &[Candidate],
    store: &Store,
) -> Result<Vec<Candidate>, DdAnswer>
    requires candidates { AreCandidates store.now.nodes asked.now candidates.now }
    requires order { AreByNumber candidates.now }
    ensures value { IfOk result (λ tops. AreTops asked.now.kernel.now candidates.now tops.items) }
    ensures no_budget { (n : ℕ) → result ≢ Err (DdAnswer.Budget n) }
{
    let mut tops = Vec::new(alloc);
    for candidate in candidates {
        tops = tops_with(alloc, asked, tops, *candidate, store)?;
    }
    Ok(tops)
}

/// The tops among some signals and a later one.
fn tops_with(
    alloc: Global,
    asked: &Asked,
    tops: Vec<Candidate>,
    candidate: Candidate,
    store: &Store,
) -> Result<Vec<Candidate>, DdAnswer>
    requires tops { AreCandidates store.now.nodes asked.now tops.items }
    requires candidate { IsCandidate store.now.nodes asked.now candidate }
    ensures value { IfOk result (λ new. AddsTop asked.now.kernel.now tops.items candidate new.items) }
    ensures no_budget { (n : ℕ) → result ≢ Err (DdAnswer.Budget n) }
{
    if !store.overlap(candidate.reactions, candidate.reactions)? {
        return Ok(tops);
    }
    if is_below_one(asked, candidate, tops.as_slice(), store)? {
        return Ok(tops);
    }
    let mut others = not_below(alloc, asked, tops.as_slice(), candidate.signal, store)?;
    others.push(candidate)?;
    Ok(others)
}

/// Whether a signal is below one of some others.
fn is_below_one(
    asked: &Asked,
    candidate: Candidate,
    others: &[Candidate],
    store: &Store,
) -> Result<bool, DdAnswer>
    requires candidate { IsCandidate store.now.nodes asked.now candidate }
    requires others { AreCandidates store.now.nodes asked.now others.now }
    ensures value { IfOk result (λ below. IsTrue below
        ↔ IsBelowCandidate asked.now.kernel.now candidate.signal others.now) }
    ensures no_budget { (n : ℕ) → result ≢ Err (DdAnswer.Budget n) }
{
    for other in others {
        if store.within(candidate.reactions, asked.presence(other.signal))? {
            return Ok(true);
        }
    }
    Ok(false)
}

/// Those of some signals that are not below another one.
fn not_below(
    alloc: Global,
    asked: &Asked,
    candidates: &[Candidate],
    signal: u32,
    store: &Store,
) -> Result<Vec<Candidate>, DdAnswer>
    requires candidates { AreCandidates store.now.nodes asked.now candidates.now }
    requires signal { IsSignal asked.now.kernel.now signal }
    ensures value { IfOk result (λ others.
        AreNotBelow asked.now.kernel.now signal candidates.now others.items) }
    ensures no_budget { (n : ℕ) → result ≢ Err (DdAnswer.Budget n) }
{
    let present = asked.presence(signal);
    let mut others = Vec::new(alloc);
    for candidate in candidates {
        if !store.within(candidate.reactions, present)? {
            others.push(*candidate)?;
        }
    }
    Ok(others)
}
