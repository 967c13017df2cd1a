//! The equations of a flat body, read one instant at a time.

ghost use Rattle.std.specs.Prelude.{◌≡◌, ◌<◌};
ghost use Rattle.sig_judge.specs.Prelude.{IfOk, IfNone, IfSome, length, map, vec_len, flat_equation_of, BodySteps};
ghost use Rattle.sig_judge.specs.inner.Decides.{BreaksAt};
ghost use Rattle.sig_judge.specs.inner.Nodes.{equation_of, without_prefix};

use crate::equation::Equation;
use crate::trace::Row;
use sig_tree::FlatEq;
use std::alloc::{AllocError, Global};

/// Equations, before the first instant.
pub fn equations_of(alloc: Global, equations: &[FlatEq]) -> Result<Vec<Equation>, AllocError>
    ensures { IfOk result (λ body. map equation_of body.items ≡ map without_prefix (map flat_equation_of equations.now)) }
{
    let mut body = Vec::with_capacity(alloc, equations.len())?;
    for equation in equations {
        body.push(Equation::of(alloc, equation)?)?;
    }
    Ok(body)
}

/// The index of the first equation that an instant does not satisfy. Where there is none, the
/// equations are behind the instant those that they step to.
pub fn first_broken(body: &mut Vec<Equation>, row: &Row) -> Option<usize>
    ensures none { IfNone result (BodySteps row.now (map equation_of body.old.items) (map equation_of body.new.items)) }
    ensures some { IfSome result (λ e. BreaksAt row.now (map equation_of body.old.items) e) }
{
    for i in 0..body.len() {
        if !body[i].step(row) {
            return Some(i);
        }
    }
    None
}
