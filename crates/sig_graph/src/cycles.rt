//! Operations that precede themselves, directly or through others.

ghost use Rattle.std.specs.Prelude.{◌≡◌, ◌<◌, ◌∷◌, [], IfOk, OnOk, All, length};
ghost use Rattle.sig_graph.specs.inner.Graphs.{IsWithin};
ghost use Rattle.sig_graph.specs.inner.Marks.{AreReaching, IsLeastOnCycle, Visits, lesser};

use crate::marks::unmarked;
use crate::numbers::Numbers;
use sig_base::SigId;
use sig_plan::Op;
use std::alloc::{AllocError, Global};

/// The least signal that an operation writes which precedes itself, directly or through others.
pub(crate) fn least_on_cycle(
    alloc: Global,
    graph: &[Numbers],
    ops: &[Op],
) -> Result<Option<SigId>, AllocError>
    requires within { IsWithin graph.now }
    requires count { length graph.now ≡ length ops.now }
    ensures { IfOk result (IsLeastOnCycle graph.now ops.now (length ops.now)) }
{
    let mut least = None;
    for (number, op) in ops.iter().enumerate() {
        let reaching = reaching(alloc, graph, number)?;
        if reaching[number] {
            least = lesser(least, op.writes);
        }
    }
    Ok(least)
}

/// The lesser of two signals, where there are two.
fn lesser(x: Option<SigId>, y: Option<SigId>) -> Option<SigId>
    ensures { result ≡ lesser x y }
{
    match (x, y) {
        (Some(a), Some(b)) => Some(if a.0 < b.0 { a } else { b }),
        (None, _) => y,
        (_, None) => x,
    }
}

/// Which numbers precede a number, directly or through others.
fn reaching(alloc: Global, graph: &[Numbers], target: usize) -> Result<Vec<bool>, AllocError>
    requires within { IsWithin graph.now }
    requires target { target < length graph.now }
    ensures { IfOk result (λ marks. AreReaching graph.now target marks.items) }
{
    let mut marks = unmarked(alloc, graph.len())?;
    let mut waiting = Vec::new(alloc);
    visit(graph[target].as_slice(), &mut marks, &mut waiting)?;
    while let Some(number) = waiting.pop() {
        visit(graph[number].as_slice(), &mut marks, &mut waiting)?;
    }
    Ok(marks)
}

/// Marks these numbers, and lets those wait that were not marked before.
fn visit(numbers: &[usize], marks: &mut [bool], waiting: &mut Vec<usize>) -> Result<(), AllocError>
    requires { All (λ number. number < length marks.old) numbers.now }
    ensures { OnOk result (Visits numbers.now marks.old marks.new waiting.old.items waiting.new.items) }
{
    for number in numbers {
        mark(*number, marks, waiting)?;
    }
    Ok(())
}

/// Marks a number, and lets it wait where it was not marked before.
fn mark(number: usize, marks: &mut [bool], waiting: &mut Vec<usize>) -> Result<(), AllocError>
    requires { number < length marks.old }
    ensures { OnOk result (Visits (number ∷ []) marks.old marks.new waiting.old.items waiting.new.items) }
{
    if marks[number] {
        return Ok(());
    }
    marks[number] = true;
    waiting.push(number)?;
    Ok(())
}
