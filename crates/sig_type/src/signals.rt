//! How often the names of a process are declared and defined.

ghost use Rattle.std.specs.Prelude.{◌≡◌};
ghost use Rattle.sig_type.specs.Prelude.{OnOk, IfOk, map, DeclaredTwice, DefinedTwice, texts, declarations_in, names_in};
ghost use Rattle.sig_type.specs.inner.Asked.{repeated, given_in, undefined_in};
ghost use Rattle.sig_type.specs.inner.Findings.{Finds};

use crate::finding::{Finding, First};
use sig_scope::{Declared, Role, Scope, Texts};
use sig_tree::Name;
use std::alloc::{AllocError, Global};

/// Each name that is declared before.
pub fn declared_twice<'a>(
    alloc: Global,
    declared: &[Declared<'a>],
    first: &mut First<'a>,
) -> Result<(), AllocError>
    ensures { OnOk result (Finds first.old first.new (repeated DeclaredTwice (map (λ d. d.name) (declarations_in declared.now)))) }
{
    let mut earlier = Texts::new(alloc);
    for one in declared {
        let name: &'a Name = one.name;
        let again = earlier.add(name.text.as_bytes())?;
        first.ask(again, Finding::DeclaredTwice(name));
    }
    Ok(())
}

/// Each left side that is an input or a parameter.
pub fn inputs_defined<'a>(scope: &Scope, left_sides: &[&'a Name], first: &mut First<'a>)
    ensures { Finds first.old first.new (given_in scope.now (names_in left_sides.now)) }
{
    for name in left_sides {
        first.ask(scope.is_given(*name), Finding::InputDefined(*name));
    }
}

/// Each left side that is defined before. The left sides are given back as texts.
pub fn defined_twice<'a>(
    alloc: Global,
    left_sides: &[&'a Name],
    first: &mut First<'a>,
) -> Result<Texts<'a>, AllocError>
    ensures texts { IfOk result (λ all. all ≡ texts (names_in left_sides.now)) }
    ensures twice { OnOk result (Finds first.old first.new (repeated DefinedTwice (names_in left_sides.now))) }
{
    let mut earlier = Texts::new(alloc);
    for name in left_sides {
        let name: &'a Name = *name;
        let again = earlier.add(name.text.as_bytes())?;
        first.ask(again, Finding::DefinedTwice(name));
    }
    Ok(earlier)
}

/// Each declaration that is not among the left sides.
pub fn undefined<'a>(left_sides: &Texts, declared: &[Declared<'a>], first: &mut First<'a>)
    ensures { Finds first.old first.new (undefined_in left_sides.now (declarations_in declared.now)) }
{
    for one in declared {
        first.ask(
            !left_sides.has(one.name.text.as_bytes()),
            Finding::Undefined(one.name),
        );
    }
}
