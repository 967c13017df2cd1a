//! Guards, as expressions.

ghost use Rattle.std.specs.Prelude.{◌≡◌, ◌<◌, ◌≤◌, ◌+◌, ◌++◌, ◌&&◌, not, true, Err, OnOk, Some, codes, length, slice_get};
ghost use Rattle.sig_file.specs.Images.{IsImage};
ghost use Rattle.sig_c.specs.Layout.{operand_bytes};
ghost use Rattle.sig_c_step.specs.Translation.{condition_in, guard_of};
ghost use Rattle.sig_c_write.specs.Given.{scope_in};
ghost use Rattle.sig_c_write.specs.declared.limits.TheConstants.{TEXT_BYTES};
ghost use Rattle.sig_c_write.specs.inner.GuardBytes.{beginning, between, bracket, child_of, denial, guard_bytes, is_constant, is_single, mark, part};

use crate::answer::WriteAnswer;
use crate::limits::TEXT_BYTES;
use crate::names::StepNames;
use crate::pieces::{put_name, put_value};
use sig_file::{Image, ImageNode, nodes_of_images_are_reduced};
use std::alloc::AllocError;

/// What a child of a node is.
#[derive(Clone, Copy, Debug, PartialEq, Eq)]
pub enum Child {
    Never,
    Always,
    Inner,
}

/// What the child of a number is.
#[tactic(auto, using(crate::proofs::GuardParts::child_inner))]
fn child_of(number: u32) -> Child
    ensures { result ≡ child_of number }
{
    if number == 0 {
        Child::Never
    } else if number == 1 {
        Child::Always
    } else {
        Child::Inner
    }
}

/// The node of a number.
fn node_of(image: &Image, place: usize) -> ImageNode
    requires { place < length image.now.nodes }
    ensures { slice_get image.now.nodes place ≡ Some result }
{
    image.nodes[place]
}

/// A law: each image is right.
pub(crate) fn images_are_right(image: &Image)
    ensures { IsImage image.now }
{
    // What holds of every image is known where its fields are read.
    let _signals = &image.signals;
}

/// The node of a number, whose children stand before it.
fn node_at(image: &Image, place: usize) -> ImageNode
    requires { place < length image.now.nodes }
    ensures is { slice_get image.now.nodes place ≡ Some result }
    ensures low { result.low < place + 2 }
    ensures high { result.high < place + 2 }
    ensures right { IsImage image.now }
{
    images_are_right(image);
    nodes_of_images_are_reduced();
    node_of(image, place)
}

/// Appends the guard of a node; within another one it is in parentheses, unless it is a condition or the denial of one.
#[cycle(guard)]
pub(crate) fn put_guard(
    text: &mut Vec<u8>,
    image: &Image,
    names: &StepNames,
    guard: u32,
    inner: bool,
) -> Result<(), WriteAnswer>
    requires node { 2 ≤ guard }
    requires there { guard < length image.now.nodes + 2 }
    ensures text { OnOk result (text.new.items ≡ text.old.items ++ guard_bytes (scope_in names.now) inner (guard_of image.now guard)) }
    ensures long { result ≡ Err WriteAnswer.TooLong → TEXT_BYTES < length text.old.items + length (guard_bytes (scope_in names.now) inner (guard_of image.now guard)) }
{
    let node = node_at(image, (guard - 2) as usize);
    let (low, high) = (child_of(node.low), child_of(node.high));
    put_beginning(text, image, names, node.variable, low, high, inner)?;
    has_room(text)?;
    put_child(text, image, names, node.high)?;
    put_between(text, low, high)?;
    put_child(text, image, names, node.low)?;
    put_bracket(text, b")", low, high, inner)?;
    Ok(())
}

/// Appends a child of a node, if it is no constant.
#[cycle(guard)]
fn put_child(
    text: &mut Vec<u8>,
    image: &Image,
    names: &StepNames,
    child: u32,
) -> Result<(), WriteAnswer>
    requires there { child < length image.now.nodes + 2 }
    ensures text { OnOk result (text.new.items ≡ text.old.items ++ part (child_of child) (operand_bytes (scope_in names.now) (guard_of image.now child))) }
    ensures long { result ≡ Err WriteAnswer.TooLong → TEXT_BYTES < length text.old.items + length (part (child_of child) (operand_bytes (scope_in names.now) (guard_of image.now child))) }
{
    match child_of(child) {
        Child::Inner => put_guard(text, image, names, child, true),
        Child::Never => Ok(()),
        Child::Always => Ok(()),
    }
}

/// Refuses a text that is too long.
fn has_room(text: &Vec<u8>) -> Result<(), WriteAnswer>
    ensures long { result ≡ Err WriteAnswer.TooLong → TEXT_BYTES < length text.now.items }
{
    if TEXT_BYTES < text.len() {
        Err(WriteAnswer::TooLong)
    } else {
        Ok(())
    }
}

/// Appends what stands before the guards that a node is made of.
fn put_beginning(
    text: &mut Vec<u8>,
    image: &Image,
    names: &StepNames,
    variable: u32,
    low: Child,
    high: Child,
    inner: bool,
) -> Result<(), AllocError>
    ensures { OnOk result (text.new.items ≡ text.old.items
        ++ beginning (scope_in names.now) inner low high (condition_in (slice_get image.now.conditions variable))) }
{
    put_bracket(text, b"(", low, high, inner)?;
    text.extend_from_slice(denial_of(low, high))?;
    put_condition(text, image, names, variable)?;
    text.extend_from_slice(mark_of(low, high))
}

/// Appends a condition.
fn put_condition(
    text: &mut Vec<u8>,
    image: &Image,
    names: &StepNames,
    variable: u32,
) -> Result<(), AllocError>
    ensures { OnOk result (text.new.items ≡ text.old.items ++ operand_bytes (scope_in names.now) (condition_in (slice_get image.now.conditions variable))) }
{
    match image.conditions.as_slice().get(variable as usize) {
        Some(x) => put_name(text, names.variables.as_slice(), x.0 as usize),
        None => put_value(text, 0),
    }
}

/// Whether a child is a constant.
fn is_constant(child: Child) -> bool
    ensures { result ≡ is_constant child }
{
    match child {
        Child::Never => true,
        Child::Always => true,
        Child::Inner => false,
    }
}

/// Appends a bracket where a guard has one.
fn put_bracket(
    text: &mut Vec<u8>,
    bytes: &[u8],
    low: Child,
    high: Child,
    inner: bool,
) -> Result<(), AllocError>
    ensures { OnOk result (text.new.items ≡ text.old.items ++ bracket inner low high bytes.now) }
{
    let single = is_constant(low) && is_constant(high);
    if inner && !single {
        text.extend_from_slice(bytes)
    } else {
        Ok(())
    }
}

/// The mark of a condition that is denied.
fn denial_of(low: Child, high: Child) -> &'static [u8]
    ensures { result.now ≡ denial low high }
{
    match (low, high) {
        (Child::Never, Child::Never) => b"!",
        (Child::Never, Child::Always) => b"",
        (Child::Never, Child::Inner) => b"",
        (Child::Always, Child::Never) => b"!",
        (Child::Always, Child::Always) => b"",
        (Child::Always, Child::Inner) => b"!",
        (Child::Inner, Child::Never) => b"!",
        (Child::Inner, Child::Always) => b"",
        (Child::Inner, Child::Inner) => b"",
    }
}

/// The operator behind the condition of a node.
fn mark_of(low: Child, high: Child) -> &'static [u8]
    ensures { result.now ≡ mark low high }
{
    match (low, high) {
        (Child::Never, Child::Never) => b"",
        (Child::Never, Child::Always) => b"",
        (Child::Never, Child::Inner) => b" && ",
        (Child::Always, Child::Never) => b"",
        (Child::Always, Child::Always) => b"",
        (Child::Always, Child::Inner) => b" || ",
        (Child::Inner, Child::Never) => b" && ",
        (Child::Inner, Child::Always) => b" || ",
        (Child::Inner, Child::Inner) => b" ? ",
    }
}

/// Appends what stands between two guards.
fn put_between(text: &mut Vec<u8>, low: Child, high: Child) -> Result<(), AllocError>
    ensures { OnOk result (text.new.items ≡ text.old.items ++ between low high) }
{
    match (low, high) {
        (Child::Inner, Child::Inner) => text.extend_from_slice(b" : "),
        (Child::Inner, Child::Never) => Ok(()),
        (Child::Inner, Child::Always) => Ok(()),
        (Child::Never, _) => Ok(()),
        (Child::Always, _) => Ok(()),
    }
}
