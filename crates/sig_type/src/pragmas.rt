//! The pragmas of a process.

ghost use Rattle.std.specs.Prelude.{◌≡◌, ◌↔◌, ◌⊎◌, ◌++◌, ◌≤◌};
ghost use Rattle.sig_type.specs.Prelude.{[], IsTrue, OnOk, length, map, AllByRecursion, placement_of, declaration_of, texts, IsSignal, IsDigit, number_of, IsCluster, bad_pragmas_of};
ghost use Rattle.sig_type.specs.inner.Asked.{placed_twice};
ghost use Rattle.sig_type.specs.inner.Findings.{Finds};

use crate::finding::{Finding, First};
use sig_base::limits::CLUSTER_MAX;
use sig_scope::{Scope, Texts};
use sig_tree::{Name, RunOn};
use std::alloc::{AllocError, Global};

/// Whether all bytes are digits.
fn are_digits(label: &[u8]) -> bool
    ensures { IsTrue result ↔ AllByRecursion IsDigit label.now }
{
    for byte in label {
        if !byte.is_ascii_digit() {
            return false;
        }
    }
    true
}

/// The number that at most 9 digits write.
fn number_of(digits: &[u8]) -> u32
    requires digits { AllByRecursion IsDigit digits.now }
    requires few { length digits.now ≤ 9 }
    ensures { result ≡ number_of digits.now }
{
    let mut number: u32 = 0;
    for digit in digits {
        number = number * 10 + u32::from(*digit - b'0');
    }
    number
}

/// Whether a label is a cluster's number: 1 to 9 digits, of a value of 0 to 63.
fn is_cluster(label: &[u8]) -> bool
    ensures { IsTrue result ↔ IsCluster label.now }
{
    if label.is_empty() || label.len() > 9 || !are_digits(label) {
        return false;
    }
    number_of(label) <= CLUSTER_MAX
}

/// Whether a name that is named in a pragma, before or not, is named wrongly.
fn is_misplaced(scope: &Scope, again: bool, name: &Name) -> bool
    ensures { IsTrue result ↔ ((IsSignal (declaration_of scope.now name.now.text) → ⊥) ⊎ IsTrue again) }
{
    again || !scope.is_signal(name)
}

/// The names of a pragma, behind those of earlier ones.
fn names<'a>(
    scope: &Scope,
    earlier: &mut Texts<'a>,
    names: &'a [Name],
    first: &mut First<'a>,
) -> Result<(), AllocError>
    ensures added { OnOk result (earlier.new ≡ earlier.old ++ texts names.now) }
    ensures twice { OnOk result (Finds first.old first.new (placed_twice scope.now earlier.old names.now)) }
{
    for name in names {
        let again = earlier.add(name.text.as_bytes())?;
        first.ask(
            is_misplaced(scope, again, name),
            Finding::BadPragma(name.at),
        );
    }
    Ok(())
}

/// The bad pragmas of a process.
pub fn bad_pragmas<'a>(
    alloc: Global,
    scope: &Scope,
    pragmas: &'a [RunOn],
    first: &mut First<'a>,
) -> Result<(), AllocError>
    ensures { OnOk result (Finds first.old first.new (bad_pragmas_of scope.now [] (map placement_of pragmas.now))) }
{
    let mut earlier = Texts::new(alloc);
    for pragma in pragmas {
        first.ask(
            !is_cluster(pragma.label.as_bytes()),
            Finding::BadPragma(pragma.at),
        );
        names(scope, &mut earlier, &pragma.names, first)?;
    }
    Ok(())
}
