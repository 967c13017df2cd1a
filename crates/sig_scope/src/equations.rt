//! The equations of a body, in the order of the text.

ghost use Rattle.std.specs.Prelude.{◌≡◌, ◌++◌};
ghost use Rattle.sig_scope.specs.Prelude.{IfOk, OnOk, equations_of, equations_in};
ghost use Rattle.sig_scope.specs.Walked.{bodies_in};

use sig_tree::Body;
use std::alloc::{AllocError, Global};

/// The definitions and clock equations of a body.
pub fn flat_equations(alloc: Global, body: &Body) -> Result<Vec<&Body>, AllocError>
    ensures { IfOk result (λ all. bodies_in all.items ≡ equations_in (equations_of body.now)) }
{
    let mut all = Vec::new(alloc);
    add_equations(&mut all, body)?;
    Ok(all)
}

/// Adds the definitions and clock equations of a body.
fn add_equations<'a>(all: &mut Vec<&'a Body>, body: &'a Body) -> Result<(), AllocError>
    ensures { OnOk result (bodies_in all.new.items ≡ bodies_in all.old.items ++ equations_in (equations_of body.now)) }
{
    match body {
        Body::All(bodies) => {
            for one in bodies {
                add_equations(all, one)?;
            }
            Ok(())
        }
        Body::Def(..) => Ok(all.push(body)?),
        Body::Same(_) => Ok(all.push(body)?),
    }
}
