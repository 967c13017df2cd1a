//! The parts of an image by their places.

ghost use Rattle.std.specs.Prelude.{◌≡◌, ◌<◌, ◌≤◌, ◌+◌, ◌-◌};
ghost use Rattle.sig_verify.specs.Prelude.{IsImage, Some, length, slice_get};

use sig_base::SigId;
use sig_file::{Image, ImageNode, ImageOp};

/// The node of a number, counted as a child is.
pub(crate) fn node_at(image: &Image, n: u32) -> ImageNode
    requires node { 2 ≤ n }
    requires within { n < length image.now.nodes + 2 }
    ensures right { IsImage image.now }
    ensures node { slice_get image.now.nodes (n - 2) ≡ Some result }
{
    image.nodes[n as usize - 2]
}

/// The condition of a variable, if it has one.
pub(crate) fn condition_at(image: &Image, v: u32) -> Option<SigId>
    ensures { slice_get image.now.conditions v ≡ result }
{
    image.conditions.get(v as usize).copied()
}

/// How many conditions there are.
pub(crate) fn conditions_of(image: &Image) -> usize
    ensures { result ≡ length image.now.conditions }
{
    image.conditions.len()
}

/// The operation of a number.
pub(crate) fn op_at(image: &Image, n: usize) -> &ImageOp
    requires { n < length image.now.ops }
    ensures right { IsImage image.now }
    ensures op { slice_get image.now.ops n ≡ Some result.now }
{
    &image.ops[n]
}

/// How many operations there are.
pub(crate) fn ops_of(image: &Image) -> usize
    ensures { result ≡ length image.now.ops }
{
    image.ops.len()
}
