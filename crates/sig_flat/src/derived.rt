//! The operators that are several equations.

ghost use Rattle.std.specs.Prelude.{◌≡◌, ◌<◌, suc, length, IfOk, OnOk};
ghost use Rattle.sig_flat.specs.Answers.{IsRefused};
ghost use Rattle.sig_flat.specs.inner.Drafts.{left_of, translated};
ghost use Rattle.sig_flat.specs.KernelOf.{cell, less, meet, next, plus, signal_id, with_clock_equations, with_clocks};

use crate::answer::FlatAnswer;
use crate::draft::Draft;
use crate::operator::{function_of_one, stored};
use crate::site::Site;
use crate::term::{Term, signal_in};
use sig_base::{Kind, SigId, Span};
use sig_kernel::{Form, FunOp, Operand};
use std::alloc::{AllocError, Global};

/// Two events, for where the operands of a clock operator are present.
#[derive(Clone, Copy)]
struct Clocks {
    first: SigId,
    second: SigId,
}

/// Adds these events.
fn add_clocks(draft: &mut Draft, alloc: Global, site: &Site, at: Span) -> Result<Clocks, FlatAnswer>
    ensures clocks { IfOk result (λ clocks. clocks ≡ record { first = signal_id (next draft.old); second = signal_id (suc (next draft.old)) }) }
    ensures made { OnOk result (draft.new ≡ with_clocks site.now at draft.old) }
    ensures refused { IsRefused result (512 < length (with_clocks site.now at draft.old).signals) }
{
    let first = draft.add_intermediate(alloc, site, Kind::Event, at)?;
    let second = draft.add_intermediate(alloc, site, Kind::Event, at)?;
    Ok(Clocks { first, second })
}

/// Adds the equations of these events.
fn add_clock_equations(
    draft: &mut Draft,
    at: Span,
    clocks: Clocks,
    u: Operand,
    v: Operand,
) -> Result<(), AllocError>
    requires { clocks.second ≡ signal_id (suc clocks.first.0) }
    ensures { OnOk result (draft.new ≡ with_clock_equations at clocks.first.0 u v draft.old) }
{
    draft.add(at, Form::Event(clocks.first, signal_in(u)))?;
    draft.add(at, Form::Event(clocks.second, signal_in(v)))
}

/// `U ^+ V`: present where one of them is.
pub fn plus(
    draft: &mut Draft,
    alloc: Global,
    left: Option<SigId>,
    site: &Site,
    at: Span,
    u: Operand,
    v: Operand,
) -> Result<Term, FlatAnswer>
    ensures made { IfOk result (λ term. translated term draft.new ≡ plus (left_of left) site.now at u v draft.old) }
    ensures refused { IsRefused result (512 < length (plus (left_of left) site.now at u v draft.old).made.signals) }
{
    let clocks = add_clocks(draft, alloc, site, at)?;
    let y = draft.own(alloc, left, site, Kind::Event, at)?;
    add_clock_equations(draft, at, clocks, u, v)?;
    draft.add(at, Form::Default(y, clocks.first, clocks.second))?;
    Ok(Term::signal(y, Kind::Event))
}

/// `U ^* V`: present where both are.
pub fn meet(
    draft: &mut Draft,
    alloc: Global,
    left: Option<SigId>,
    site: &Site,
    at: Span,
    u: Operand,
    v: Operand,
) -> Result<Term, FlatAnswer>
    ensures made { IfOk result (λ term. translated term draft.new ≡ meet (left_of left) site.now at u v draft.old) }
    ensures refused { IsRefused result (512 < length (meet (left_of left) site.now at u v draft.old).made.signals) }
{
    let clocks = add_clocks(draft, alloc, site, at)?;
    let y = draft.own(alloc, left, site, Kind::Event, at)?;
    add_clock_equations(draft, at, clocks, u, v)?;
    draft.add(at, Form::When(y, clocks.first, clocks.second))?;
    Ok(Term::signal(y, Kind::Event))
}

/// `U ^- V`: present where the first is and the second is not.
pub fn less(
    draft: &mut Draft,
    alloc: Global,
    left: Option<SigId>,
    site: &Site,
    at: Span,
    u: Operand,
    v: Operand,
) -> Result<Term, FlatAnswer>
    ensures made { IfOk result (λ term. translated term draft.new ≡ less (left_of left) site.now at u v draft.old) }
    ensures refused { IsRefused result (512 < length (less (left_of left) site.now at u v draft.old).made.signals) }
{
    let clocks = add_clocks(draft, alloc, site, at)?;
    let z = draft.add_intermediate(alloc, site, Kind::Boolean, at)?;
    let w = draft.add_intermediate(alloc, site, Kind::Boolean, at)?;
    let y = draft.own(alloc, left, site, Kind::Event, at)?;
    add_clock_equations(draft, at, clocks, u, v)?;
    let negated = function_of_one(alloc, z, FunOp::Not, Operand::Sig(clocks.second))?;
    draft.add(at, negated)?;
    draft.add(at, Form::Default(w, z, clocks.first))?;
    draft.add(at, Form::WhenConst(y, 1, w))?;
    Ok(Term::signal(y, Kind::Event))
}

/// `X cell B`: the last X, present where X is and where B is true.
pub fn cell(
    draft: &mut Draft,
    alloc: Global,
    left: Option<SigId>,
    site: &Site,
    at: Span,
    init: i64,
    x: Term,
    b: Term,
) -> Result<Term, FlatAnswer>
    ensures made { IfOk result (λ term. translated term draft.new ≡ cell (left_of left) site.now init at (translated x draft.old) (translated b draft.old)) }
    ensures refused { IsRefused result (512 < length (cell (left_of left) site.now init at (translated x draft.old) (translated b draft.old)).made.signals) }
{
    let kind = stored(x.kind);
    let z = draft.add_intermediate(alloc, site, kind, at)?;
    let y = draft.own(alloc, left, site, kind, at)?;
    let e = draft.add_intermediate(alloc, site, Kind::Event, at)?;
    let w = draft.add_intermediate(alloc, site, Kind::Event, at)?;
    let d = draft.add_intermediate(alloc, site, Kind::Event, at)?;
    draft.add(at, Form::Delay(z, y, init))?;
    draft.add(at, Form::Default(y, signal_in(x.operand), z))?;
    draft.add(at, Form::Event(e, signal_in(x.operand)))?;
    draft.add(at, Form::WhenConst(w, 1, signal_in(b.operand)))?;
    draft.add(at, Form::Default(d, e, w))?;
    draft.add(at, Form::Sync(y, d))?;
    Ok(Term::signal(y, kind))
}
