//! The left sides of equations.

ghost use Rattle.std.specs.Prelude.{◌≡◌, ◌++◌};
ghost use Rattle.sig_type.specs.Prelude.{IfOk, OnOk, flat_map, left_sides, bodies_in, names_in};

use sig_tree::{Body, Name};
use std::alloc::{AllocError, Global};

/// The left sides of equations.
pub fn left_sides_of<'a>(alloc: Global, equations: &[&'a Body]) -> Result<Vec<&'a Name>, AllocError>
    ensures { IfOk result (λ all. names_in all.items ≡ flat_map left_sides (bodies_in equations.now)) }
{
    let mut all = Vec::new(alloc);
    for equation in equations {
        if let Body::Def(names, _) = *equation {
            add_names(&mut all, names)?;
        }
    }
    Ok(all)
}

/// Adds names.
fn add_names<'a>(all: &mut Vec<&'a Name>, names: &'a [Name]) -> Result<(), AllocError>
    ensures { OnOk result (names_in all.new.items ≡ names_in all.old.items ++ names.now) }
{
    for name in names {
        all.push(name)?;
    }
    Ok(())
}
