//! Signals, conditions, memories and nodes.

ghost use Rattle.std.specs.Prelude.{◌≡◌, ◌&&◌, ◌==◌, ◌++◌, ◌∷◌};
ghost use Rattle.sig_file.specs.Prelude.{[], IfOk, IsTrue, list_any, not};
ghost use Rattle.sig_file.specs.Fields.{condition_at, memory_from, node_at, signal_at};
ghost use Rattle.sig_file.specs.Images.{is_boolean, is_child, is_high_child, is_name, is_name_length, is_taken, names_of};
ghost use Rattle.sig_file.specs.inner.Names.{IsSetOf};
ghost use Rattle.sig_file.specs.inner.NodeSets.{IsNodeSet};
ghost use Rattle.sig_file.specs.inner.Reading.{Gives, number_if, several, text_if};

use crate::field::{choice_at, long_at, number_at, text_at};
use crate::fits::{is_value, kind_at};
use crate::images::{ImageMemory, ImageNode, ImageSignal};
use crate::limits::NAME_BYTES;
use crate::names::Names;
use crate::node_set::NodeSet;
use crate::stop::Stop;
use sig_base::{Kind, SigId, Text};
use std::alloc::{AllocError, Global};

/// The length of a name, and the bytes behind it.
fn length_at(bytes: &[u8]) -> Result<(u32, &[u8]), Stop>
    ensures { Gives (λ x. (x.0, x.1.now)) result (number_if is_name_length bytes.now) }
{
    let (len, rest) = number_at(bytes)?;
    if len == 0 || len > NAME_BYTES {
        return Err(Stop::Broken(bytes.len()));
    }
    Ok((len, rest))
}

/// Whether these are printable ASCII without blanks.
pub fn is_name(name: &[u8]) -> bool
    ensures { result ≡ is_name name.now }
{
    name.iter().all(|byte| *byte > 32 && *byte < 127)
}

/// The name of the signal behind these, that of none of them where it is an input, and the bytes
/// behind it.
fn name_at<'a>(
    count: u32,
    inputs: u32,
    before: &[ImageSignal],
    names: &Names,
    bytes: &'a [u8],
) -> Result<(&'a [u8], &'a [u8]), Stop>
    requires { IsSetOf (names_of before.now) names.now.set }
    ensures { Gives (λ x. (x.0.now, x.1.now)) result
        (text_if count (λ name. is_name name && not (is_taken inputs before.now name)) bytes.now) }
{
    let (name, rest) = text_at(count as usize, bytes)?;
    if !is_name(name) || (before.len() < inputs as usize && names.has(name)) {
        return Err(Stop::Broken(bytes.len()));
    }
    Ok((name, rest))
}

/// A signal behind these, its name, and the bytes behind it.
#[tactic(auto, unfolding(crate::specs::Fields::signal_at))]
fn signal_at<'a>(
    alloc: Global,
    inputs: u32,
    before: &[ImageSignal],
    names: &Names,
    bytes: &'a [u8],
) -> Result<(ImageSignal, &'a [u8], &'a [u8]), Stop>
    requires { IsSetOf (names_of before.now) names.now.set }
    ensures signal { Gives (λ x. (x.0, x.2.now)) result (signal_at inputs before.now bytes.now) }
    ensures name { IfOk result (λ x. x.1.now ≡ x.0.name) }
{
    let (kind, rest) = choice_at(&[Kind::Integer, Kind::Boolean, Kind::Event], bytes)?;
    let (len, rest) = length_at(rest)?;
    let (text, rest) = name_at(len, inputs, before, names, rest)?;
    let name = Text::from_bytes(alloc, text)?;
    Ok((ImageSignal { kind, name }, text, rest))
}

/// So many signals, and the bytes behind them.
pub fn signals_at(
    alloc: Global,
    inputs: u32,
    count: u32,
    bytes: &[u8],
) -> Result<(Vec<ImageSignal>, &[u8]), Stop>
    ensures { Gives (λ x. (x.0.items, x.1.now)) result (several (signal_at inputs) count [] bytes.now) }
{
    let mut names = Names::new(alloc);
    let mut signals = Vec::new(alloc);
    let mut rest = bytes;
    for _ in 0..count {
        let (signal, name, after) = signal_at(alloc, inputs, &signals, &names, rest)?;
        names.add(name)?;
        signals.push(signal)?;
        rest = after;
    }
    Ok((signals, rest))
}

/// A condition, a boolean and none of those before it, and the bytes behind it.
#[tactic(auto, unfolding(crate::specs::Fields::condition_at))]
fn condition_at<'a>(
    signals: &[ImageSignal],
    before: &[SigId],
    bytes: &'a [u8],
) -> Result<(SigId, &'a [u8]), Stop>
    ensures { Gives (λ x. (x.0, x.1.now)) result (condition_at signals.now before.now bytes.now) }
{
    let (x, rest) = number_at(bytes)?;
    if !is_boolean(kind_at(signals, x)) || is_among(before, x) {
        return Err(Stop::Broken(bytes.len()));
    }
    Ok((SigId(x), rest))
}

/// Whether this is there, and boolean.
fn is_boolean(kind: Option<Kind>) -> bool
    ensures { result ≡ is_boolean kind }
{
    matches!(kind, Some(Kind::Boolean))
}

/// Whether a signal is one of these conditions.
fn is_among(conditions: &[SigId], x: u32) -> bool
    ensures { result ≡ list_any (λ condition. condition.0 == x) conditions.now }
{
    conditions.iter().any(|condition| condition.0 == x)
}

/// So many conditions, and the bytes behind them.
pub fn conditions_at<'a>(
    alloc: Global,
    signals: &[ImageSignal],
    count: u32,
    bytes: &'a [u8],
) -> Result<(Vec<SigId>, &'a [u8]), Stop>
    ensures { Gives (λ x. (x.0.items, x.1.now)) result (several (condition_at signals.now) count [] bytes.now) }
{
    let mut conditions = Vec::new(alloc);
    let mut rest = bytes;
    for _ in 0..count {
        let (condition, after) = condition_at(signals, &conditions, rest)?;
        conditions.push(condition)?;
        rest = after;
    }
    Ok((conditions, rest))
}

/// A memory, and the bytes behind it.
#[tactic(auto, unfolding(crate::specs::Fields::memory_from))]
fn memory_from(bytes: &[u8]) -> Result<(ImageMemory, &[u8]), Stop>
    ensures { Gives (λ x. (x.0, x.1.now)) result (memory_from bytes.now) }
{
    let (kind, rest) = choice_at(&[Kind::Integer, Kind::Boolean], bytes)?;
    let (init, after) = long_at(rest)?;
    if !is_value(kind, init) {
        return Err(Stop::Broken(rest.len()));
    }
    Ok((ImageMemory { kind, init }, after))
}

/// So many memories, and the bytes behind them.
pub fn memories_at(
    alloc: Global,
    count: u32,
    bytes: &[u8],
) -> Result<(Vec<ImageMemory>, &[u8]), Stop>
    ensures { Gives (λ x. (x.0.items, x.1.now)) result (several (λ before. memory_from) count [] bytes.now) }
{
    let mut memories = Vec::new(alloc);
    let mut rest = bytes;
    for _ in 0..count {
        let (memory, after) = memory_from(rest)?;
        memories.push(memory)?;
        rest = after;
    }
    Ok((memories, rest))
}

/// Whether a node behind these, of this variable, may have this child.
fn is_child(before: &[ImageNode], variable: u32, child: u32) -> bool
    ensures { result ≡ is_child before.now variable child }
{
    if child < 2 {
        return true;
    }
    match before.get(child as usize - 2) {
        Some(node) => variable < node.variable,
        None => false,
    }
}

/// Whether a node behind these, of this variable and this child for false, may have this child for
/// true. The node is added to their set.
fn add_behind(
    before: &[ImageNode],
    known: &mut NodeSet,
    node: ImageNode,
) -> Result<bool, AllocError>
    requires { IsNodeSet before.now known.old.set }
    ensures may { IfOk result (λ may. may ≡ is_high_child before.now node.variable node.low node.high) }
    ensures known { IfOk result (λ may. IsTrue may → IsNodeSet (before.now ++ node ∷ []) known.new.set) }
{
    if node.high == node.low || !is_child(before, node.variable, node.high) {
        return Ok(false);
    }
    known.add(node)
}

/// A node behind these, and the bytes behind it.
#[tactic(auto, unfolding(crate::specs::Fields::node_at))]
fn node_at<'a>(
    conditions: u32,
    before: &[ImageNode],
    known: &mut NodeSet,
    bytes: &'a [u8],
) -> Result<(ImageNode, &'a [u8]), Stop>
    requires { IsNodeSet before.now known.old.set }
    ensures node { Gives (λ x. (x.0, x.1.now)) result (node_at conditions before.now bytes.now) }
    ensures known { IfOk result (λ x. IsNodeSet (before.now ++ x.0 ∷ []) known.new.set) }
{
    let (variable, rest) = number_at(bytes)?;
    if variable >= conditions {
        return Err(Stop::Broken(bytes.len()));
    }
    let (low, after) = number_at(rest)?;
    if !is_child(before, variable, low) {
        return Err(Stop::Broken(rest.len()));
    }
    let (high, last) = number_at(after)?;
    let node = ImageNode {
        variable,
        low,
        high,
    };
    if !add_behind(before, known, node)? {
        return Err(Stop::Broken(after.len()));
    }
    Ok((node, last))
}

/// So many nodes, and the bytes behind them.
pub fn nodes_at(
    alloc: Global,
    conditions: u32,
    count: u32,
    bytes: &[u8],
) -> Result<(Vec<ImageNode>, &[u8]), Stop>
    ensures { Gives (λ x. (x.0.items, x.1.now)) result (several (node_at conditions) count [] bytes.now) }
{
    let mut nodes = Vec::new(alloc);
    let mut known = NodeSet::new(alloc);
    let mut rest = bytes;
    for _ in 0..count {
        let (node, after) = node_at(conditions, nodes.as_slice(), &mut known, rest)?;
        nodes.push(node)?;
        rest = after;
    }
    Ok((nodes, rest))
}
