//! The values of diagrams.

ghost use Rattle.std.specs.Prelude.{◌≡◌, ◌<◌, ◌↔◌, All, IsTrue};
ghost use Rattle.sig_dd.specs.Nodes.{Holds};

use sig_dd::{DdAnswer, Ref, Steps, Store};
use std::alloc::{AllocError, Global};
use std::marker::Brand;
use std::sync::ledger::{Blank, Ledger};

fn all_below(variables: &[u32], count: usize) -> bool
    ensures { IsTrue result ↔ All (λ v. v < count) variables.now }
{
    variables.iter().all(|v| (*v as usize) < count)
}

/// The function's value, where the truths tell each of its variables.
pub(crate) fn value(store: &Store, f: Ref, truths: &[bool]) -> Result<Option<bool>, DdAnswer>
    requires { Holds store.now.nodes f }
{
    value_with::<Brand>(store, f, truths, Blank::new(1))
}

fn value_with<L: Ledger>(
    store: &Store,
    f: Ref,
    truths: &[bool],
    blank: Blank,
) -> Result<Option<bool>, DdAnswer>
    requires held { Holds store.now.nodes f }
    requires name { blank.name ≡ L.name }
    requires parts { blank.parts ≡ L.parts }
    requires some { 0 < L.parts }
{
    let variables = store.support(f)?;
    if all_below(variables.as_slice(), truths.len()) {
        let mut steps = Steps::<L>::new(blank);
        Ok(Some(store.eval(f, truths, &mut steps)))
    } else {
        Ok(None)
    }
}

/// Whether the function is true where so many variables are false and those behind them are the binary digits of the
/// number, the lowest first.
pub fn is_true_at(
    alloc: Global,
    store: &Store,
    f: Ref,
    first: u32,
    number: u32,
) -> Result<bool, DdAnswer>
    requires { Holds store.now.nodes f }
{
    let truths = truths_of(alloc, first, number)?;
    Ok(value(store, f, truths.as_slice())? == Some(true))
}

/// The truths of a number: false for so many variables, and then its eleven binary digits, the lowest first.
fn truths_of(alloc: Global, first: u32, number: u32) -> Result<Vec<bool>, AllocError> {
    let mut truths = vec![in alloc; false; first as usize]?;
    for place in 0..11u32 {
        truths.push((number >> place) % 2 == 1)?;
    }
    Ok(truths)
}
