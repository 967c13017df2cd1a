//! The functions of a store.

ghost use Rattle.std.specs.Prelude.{◌≤◌, All, IfOk, IfSome, length};
ghost use Rattle.sig_dd.specs.Nodes.{Holds};

use super::values::value;
use anyhow::{Result, bail};
use sig_dd::{DdAnswer, Ref, Store};
use std::fmt::Write;

/// Whether an odd number of the first variables is true.
fn parity(store: &mut Store, count: u32) -> Result<Ref, DdAnswer>
    ensures grows { length store.old.nodes ≤ length store.new.nodes }
    ensures held { IfOk result (Holds store.new.nodes) }
{
    let mut odd = store.constant(false);
    for v in 0..count {
        let here = store.variable(v)?;
        let not_odd = store.negate(odd)?;
        odd = store.ite(here, not_odd, odd)?;
    }
    Ok(odd)
}

/// The function that is made, or why it is not; nothing where none is asked for.
pub(crate) fn made(
    store: &mut Store,
    what: &str,
    held: &[Ref],
    numbers: &[u32],
) -> Option<Result<Ref, DdAnswer>>
    requires { All (λ f. Holds store.old.nodes f) held.now }
    ensures grows { length store.old.nodes ≤ length store.new.nodes }
    ensures held { IfSome result (λ made. IfOk made (Holds store.new.nodes)) }
{
    match (what, held, numbers) {
        ("variable", _, [v]) => Some(store.variable(*v)),
        ("parity", _, [count]) => Some(parity(store, *count)),
        ("conj", [f, g], _) => Some(store.conj(*f, *g)),
        ("disj", [f, g], _) => Some(store.disj(*f, *g)),
        ("ite", [f, g, h], _) => Some(store.ite(*f, *g, *h)),
        ("negate", [f], _) => Some(store.negate(*f)),
        ("restrict", [f], [v, truth]) => Some(store.restrict(*f, *v, *truth == 1)),
        ("forget_var", [f], [v]) => Some(store.forget_var(*f, *v)),
        ("meet_without_0", [f, g], _) => Some(store.meet_without(*f, *g, &[true])),
        ("rename", [f], to) => Some(store.rename(*f, to)),
        _ => None,
    }
}

/// Adds what is asked of the functions.
pub(crate) fn write_told(
    out: &mut String,
    store: &mut Store,
    what: &str,
    held: &[Ref],
    numbers: &[u32],
) -> Result<()>
    requires { All (λ f. Holds store.old.nodes f) held.now }
    ensures { length store.old.nodes ≤ length store.new.nodes }
{
    match (what, held) {
        ("len", _) => write!(out, "{}", store.len()),
        ("within", [f, g]) => write!(out, "{:?}", store.within(*f, *g)),
        ("overlap", [f, g]) => write!(out, "{:?}", store.overlap(*f, *g)),
        ("implies", [f, g]) => write!(out, "{:?}", store.implies(*f, *g)),
        ("support", [f]) => write!(out, "{:?}", store.support(*f)),
        ("supports", roots) => return write_supports(out, store, roots),
        ("value", [f]) => return write_value(out, store, *f, numbers),
        _ => bail!("there is no such question"),
    }?;
    Ok(())
}

/// Adds the supports of functions.
fn write_supports(out: &mut String, store: &Store, roots: &[Ref]) -> Result<()>
    requires { All (λ f. Holds store.now.nodes f) roots.now }
{
    for list in store.supports(roots)?.as_slice() {
        write!(out, "{:?}", list.as_slice())?;
    }
    Ok(())
}

/// Adds the function's value where the variables have these truths.
fn write_value(out: &mut String, store: &Store, f: Ref, numbers: &[u32]) -> Result<()>
    requires { Holds store.now.nodes f }
{
    let alloc = *out.allocator();
    let truths = numbers
        .iter()
        .map(|number| *number == 1)
        .collect::<Vec<bool>>(alloc)?;
    write!(out, "{:?}", value(store, f, truths.as_slice()))?;
    Ok(())
}
