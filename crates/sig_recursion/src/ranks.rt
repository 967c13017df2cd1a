//! Ranks of processes that fall along calls. Processes that call one another in a circle have one rank,
//! and all others have ranks of their own, so that a call of lower rank leads nowhere back.

ghost use Rattle.std.specs.Prelude.{◌≡◌, ◌≤◌, IfOk, IsTrue, slice_index_or};
ghost use Rattle.std.specs.List.{All};
ghost use Rattle.sig_recursion.specs.Calls.{graph_in, rank_of, IsFalling};

use std::alloc::{AllocError, Global};

/// What a walk does next: it enters a place, or leaves it, when all that it calls was walked.
#[derive(Drop)]
enum Step {
    Enter(usize),
    Leave(usize),
}

/// Places are to be entered.
fn enter_all(places: &[usize], steps: &mut Vec<Step>) -> Result<(), AllocError> {
    for place in places {
        steps.push(Step::Enter(*place))?;
    }
    Ok(())
}

/// Takes one step of a walk. A place that was entered before is not entered again.
fn take(
    callees: &[Vec<usize>],
    step: Step,
    seen: &mut [bool],
    steps: &mut Vec<Step>,
    left: &mut Vec<usize>,
) -> Result<(), AllocError> {
    match step {
        Step::Leave(place) => Ok(left.push(place)?),
        Step::Enter(place) => {
            if place < seen.len() && place < callees.len() && !seen[place] {
                seen[place] = true;
                steps.push(Step::Leave(place))?;
                enter_all(&callees[place], steps)?;
            }
            Ok(())
        }
    }
}

/// All places in the order in which a walk along calls leaves them.
fn leaving_order(alloc: Global, callees: &[Vec<usize>]) -> Result<Vec<usize>, AllocError> {
    let mut seen = vec![in alloc; false; callees.len()]?;
    let mut steps = Vec::new(alloc);
    let mut left = Vec::new(alloc);
    for start in 0..callees.len() {
        steps.push(Step::Enter(start))?;
    }
    for _ in 0..u64::MAX {
        match steps.pop() {
            Some(step) => take(callees, step, &mut seen, &mut steps, &mut left)?,
            None => break,
        }
    }
    Ok(left)
}

/// Adds a caller to each of its callees.
fn add_caller(
    callers: &mut Vec<Vec<usize>>,
    caller: usize,
    callees: &[usize],
) -> Result<(), AllocError> {
    for callee in callees {
        let callee = *callee;
        if callee < callers.len() {
            callers[callee].push(caller)?;
        }
    }
    Ok(())
}

/// The callers of each place.
fn callers_of(alloc: Global, callees: &[Vec<usize>]) -> Result<Vec<Vec<usize>>, AllocError> {
    let mut callers = Vec::new(alloc);
    for _ in 0..callees.len() {
        callers.push(Vec::new(alloc))?;
    }
    for (place, row) in callees.iter().enumerate() {
        add_caller(&mut callers, place, row)?;
    }
    Ok(callers)
}

/// Adds places.
fn add_all(places: &[usize], waiting: &mut Vec<usize>) -> Result<(), AllocError> {
    for place in places {
        waiting.push(*place)?;
    }
    Ok(())
}

/// Gives a rank to a place and to all that lead there, of those that have none.
fn rank_from(
    alloc: Global,
    callers: &[Vec<usize>],
    start: usize,
    rank: usize,
    ranks: &mut [Option<usize>],
) -> Result<(), AllocError> {
    let mut waiting = Vec::new(alloc);
    waiting.push(start)?;
    for _ in 0..u64::MAX {
        match waiting.pop() {
            Some(place) => {
                if place < ranks.len() && place < callers.len() && ranks[place].is_none() {
                    ranks[place] = Some(rank);
                    add_all(&callers[place], &mut waiting)?;
                }
            }
            None => break,
        }
    }
    Ok(())
}

/// Ranks by the places that lead to one another: the last that was left has the highest rank, with all
/// that lead to it.
fn circles(alloc: Global, callees: &[Vec<usize>]) -> Result<Vec<Option<usize>>, AllocError> {
    let callers = callers_of(alloc, callees)?;
    let mut left = leaving_order(alloc, callees)?;
    let mut ranks = vec![in alloc; None; callees.len()]?;
    for _ in 0..u64::MAX {
        match left.pop() {
            Some(place) => rank_from(alloc, &callers, place, left.len(), &mut ranks)?,
            None => break,
        }
    }
    Ok(ranks)
}

/// The rank at a place; the lowest, where there is none.
pub fn rank_at(ranks: &[Option<usize>], place: usize) -> usize
    ensures { result ≡ rank_of ranks.now place }
{
    match ranks.get(place) {
        Some(Some(rank)) => *rank,
        _ => 0,
    }
}

/// Whether these callees have no higher rank than their caller.
fn falls_to(ranks: &[Option<usize>], caller: usize, callees: &[usize]) -> bool
    ensures { IsTrue result → All (λ callee. rank_of ranks.now callee ≤ rank_of ranks.now caller) callees.now }
{
    for callee in callees {
        if rank_at(ranks, *callee) > rank_at(ranks, caller) {
            return false;
        }
    }
    true
}

/// Whether ranks fall along all calls.
fn is_falling(ranks: &[Option<usize>], callees: &[Vec<usize>]) -> bool
    ensures { IsTrue result → IsFalling (graph_in callees.now) ranks.now }
{
    for (place, row) in callees.iter().enumerate() {
        if !falls_to(ranks, place, row) {
            return false;
        }
    }
    true
}

/// Ranks that fall along all calls.
pub fn ranks_of(alloc: Global, callees: &[Vec<usize>]) -> Result<Vec<Option<usize>>, AllocError>
    ensures { IfOk result (λ ranks. IsFalling (graph_in callees.now) ranks.items) }
{
    let ranks = circles(alloc, callees)?;
    if is_falling(&ranks, callees) {
        Ok(ranks)
    } else {
        Ok(Vec::new(alloc))
    }
}
