//! The equations of a flat body.

ghost use Rattle.std.specs.Prelude.{◌≡◌, ◌<◌};
ghost use Rattle.sig_flat.specs.Prelude.{length, map, OnOk, flat_equation_of};
ghost use Rattle.sig_flat.specs.Answers.{IsRefused};
ghost use Rattle.sig_flat.specs.KernelOf.{with_all_syncs, with_flat_equation, with_flat_equations};

use crate::answer::FlatAnswer;
use crate::draft::Draft;
use crate::expression::{operands, translate};
use crate::site::Site;
use sig_base::{SigId, Span};
use sig_kernel::Form;
use sig_tree::FlatEq;
use std::alloc::{AllocError, Global};

/// Adds that each of these signals and the next one are present together.
fn add_syncs(draft: &mut Draft, signals: &[(SigId, Span)]) -> Result<(), AllocError>
    ensures { OnOk result (draft.new ≡ with_all_syncs signals.now draft.old) }
{
    let mut previous = None;
    for next in signals {
        if let Some(first) = previous {
            draft.add(next.1, Form::Sync(first, next.0))?;
        }
        previous = Some(next.0);
    }
    Ok(())
}

/// Adds what an equation of a flat body becomes.
#[tactic(auto, using(crate::proofs::Sizes::equal_no_less))]
fn add_equation(draft: &mut Draft, alloc: Global, equation: &FlatEq) -> Result<(), FlatAnswer>
    ensures made { OnOk result (draft.new ≡ with_flat_equation (flat_equation_of equation.now) draft.old) }
    ensures refused { IsRefused result (512 < length (with_flat_equation (flat_equation_of equation.now) draft.old).signals) }
{
    match equation {
        FlatEq::Def(left, e, prefix) => {
            let site = Site {
                cluster: draft.cluster(*left),
                prefix,
            };
            translate(draft, alloc, Some(*left), &site, e)?;
            Ok(())
        }
        FlatEq::Same(expressions, prefix) => {
            let site = Site { cluster: 0, prefix };
            let signals = operands(draft, alloc, &site, expressions)?;
            Ok(add_syncs(draft, &signals)?)
        }
    }
}

/// Adds what the equations of a flat body become.
pub fn add_equations(
    draft: &mut Draft,
    alloc: Global,
    equations: &[FlatEq],
) -> Result<(), FlatAnswer>
    ensures made { OnOk result (draft.new ≡ with_flat_equations (map flat_equation_of equations.now) draft.old) }
    ensures refused { IsRefused result (512 < length (with_flat_equations (map flat_equation_of equations.now) draft.old).signals) }
{
    for equation in equations {
        add_equation(draft, alloc, equation)?;
    }
    Ok(())
}
