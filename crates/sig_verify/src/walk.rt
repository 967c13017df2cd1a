//! What is told of the nodes of an image.

ghost use Rattle.std.specs.Prelude.{◌≡◌, ◌<◌, ◌+◌, ◌*◌, ◌&&◌, if◌then◌else◌};
ghost use Rattle.sig_verify.specs.Prelude.{ℕ, Bool, List, IfErr, IfOk, ImageView, OnOk, false, length, test, true, truth_of};
ghost use Rattle.sig_verify.specs.inner.Asking.{AreTold, IsScene, IsTold, asked, choices, guard_at};
ghost use Rattle.sig_verify.specs.inner.Diagrams.{Follows, IsFor, IsOf, IsRefusal};
ghost use Rattle.sig_verify.specs.declared.diagrams.Diagrams.{Diagrams};

use crate::diagrams::Diagrams;
use crate::parts::node_at;
use crate::written::{Written, asked_at};
use sig_dd::{DdAnswer, Ref};
use sig_file::Image;
use std::alloc::AllocError;
use std::collections::BTreeMap;

/// What is told of a node: its function, and the proposals for which each condition that the walk from it asks was
/// written when the node was walked.
#[derive(Clone, Copy)]
pub(crate) struct Told {
    pub(crate) function: Ref,
    pub(crate) written: Ref,
}

/// What is told of a constant, whose walk asks nothing.
fn constant_told(diagrams: &Diagrams, truth: bool) -> Told
    ensures function { IsFor diagrams.now (λ _. truth) result.function }
    ensures written { IsFor diagrams.now (λ _. true) result.written }
{
    Told {
        function: diagrams.constant(truth),
        written: diagrams.constant(true),
    }
}

/// What is told of a node of this variable, by what is told of its children.
fn node_told(
    diagrams: &mut Diagrams,
    image: &Image,
    written: &Written,
    v: u32,
    low: Told,
    high: Told,
) -> Result<Told, DdAnswer>
    requires scene { IsScene diagrams.old image.now written.now }
    requires v { v < diagrams.old.conditions }
    requires low_function { IsOf diagrams.old low.function }
    requires low_written { IsOf diagrams.old low.written }
    requires high_function { IsOf diagrams.old high.function }
    requires high_written { IsOf diagrams.old high.written }
    ensures next { Follows 5 diagrams.old diagrams.new }
    ensures function { IfOk result (λ told. IsFor diagrams.new (λ truths. if truth_of truths v
        then test diagrams.old.store.nodes high.function truths else test diagrams.old.store.nodes low.function truths) told.function) }
    ensures written { IfOk result (λ told. IsFor diagrams.new (λ truths. asked diagrams.old image.now written.now v truths
        && (if truth_of truths v then test diagrams.old.store.nodes high.written truths
        else test diagrams.old.store.nodes low.written truths)) told.written) }
    ensures refused { IfErr result (IsRefusal diagrams.old 5) }
{
    let function = diagrams.choice(v, low.function, high.function)?;
    let below = diagrams.choice(v, low.written, high.written)?;
    let here = asked_at(diagrams, image, written, v);
    let written = diagrams.both(here, below)?;
    Ok(Told { function, written })
}

/// What is told of the constant or the node of a number, where some nodes were walked already. It recurses as deep as
/// there are conditions.
pub(crate) fn walk(
    diagrams: &mut Diagrams,
    image: &Image,
    written: &Written,
    told: &mut BTreeMap<u32, Told>,
    n: u32,
) -> Result<Told, DdAnswer>
    requires scene { IsScene diagrams.old image.now written.now }
    requires n { n < length image.now.nodes + 2 }
    requires told { AreTold false diagrams.old image.now (asked diagrams.old image.now written.now) told.old }
    ensures next { Follows (5 * choices (guard_at image.now n)) diagrams.old diagrams.new }

    // What is told is exact where all that was told before is.
    ensures told { OnOk result ((exact : Bool) → AreTold exact diagrams.old image.now (asked diagrams.old image.now written.now) told.old
        → AreTold exact diagrams.new image.now (asked diagrams.new image.now written.now) told.new) }
    ensures value { IfOk result (λ own. (exact : Bool) → AreTold exact diagrams.old image.now (asked diagrams.old image.now written.now) told.old
        → IsTold exact diagrams.new image.now (asked diagrams.new image.now written.now) n own) }
    ensures refused { IfErr result (IsRefusal diagrams.old (5 * choices (guard_at image.now n))) }
{
    if n < 2 {
        return Ok(constant_told(diagrams, n == 1));
    }
    if let Some(known) = told.get(&n) {
        return Ok(*known);
    }
    let node = node_at(image, n);
    let low = walk(diagrams, image, written, told, node.low)?;
    let high = walk(diagrams, image, written, told, node.high)?;
    let own = node_told(diagrams, image, written, node.variable, low, high)?;
    keep_told(told, n, own)?;
    Ok(own)
}

/// Keeps what is told of a node.
fn keep_told(told: &mut BTreeMap<u32, Told>, n: u32, own: Told) -> Result<(), AllocError>
    ensures { OnOk result ((exact : Bool) (diagrams : Diagrams) (image : ImageView) (written : ℕ → List Bool → Bool)
        → IsTold exact diagrams image written n own → AreTold exact diagrams image written told.old → AreTold exact diagrams image written told.new) }
{
    told.insert(n, own)?;
    Ok(())
}
