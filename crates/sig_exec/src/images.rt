//! The parts of a verified image.

ghost use Rattle.std.specs.Prelude.{◌≡◌, ◌<◌};
ghost use Rattle.sig_exec.specs.Prelude.{IsImage, IsOperation, IsSoundImage, Some, length, scope_of, slice_get};

use sig_base::SigId;
use sig_file::{Image, ImageNode, ImageOp, ImageSignal};
use sig_verify::Verified;

/// The image.
pub(crate) fn image_of(verified: &Verified) -> &Image
    ensures image { result.now ≡ verified.now }
    ensures right { IsImage verified.now }
    ensures sound { IsSoundImage verified.now }
{
    let image = &verified.image;
    images_are_right(image);
    image
}

/// A law: each image is right.
pub(crate) fn images_are_right(image: &Image)
    ensures { IsImage image.now }
{
    // What holds of every image is known where its fields are read.
    let _signals = &image.signals;
}

/// How many signals there are.
pub(crate) fn signal_count(image: &Image) -> usize
    ensures { result ≡ length image.now.signals }
{
    image.signals.len()
}

/// How many inputs there are.
pub(crate) fn inputs_of(image: &Image) -> u32
    ensures { result ≡ image.now.inputs }
{
    image.inputs
}

/// How many outputs there are.
pub(crate) fn outputs_of(image: &Image) -> u32
    ensures { result ≡ image.now.outputs }
{
    image.outputs
}

/// The signal of a number.
pub(crate) fn signal_at(image: &Image, number: usize) -> &ImageSignal
    requires { number < length image.now.signals }
    ensures { slice_get image.now.signals number ≡ Some result.now }
{
    &image.signals[number]
}

/// The node of a number.
pub(crate) fn node_at(image: &Image, place: usize) -> ImageNode
    requires { place < length image.now.nodes }
    ensures { slice_get image.now.nodes place ≡ Some result }
{
    image.nodes[place]
}

/// The conditions.
pub(crate) fn conditions_of(image: &Image) -> &[SigId]
    ensures { result.now ≡ image.now.conditions }
{
    image.conditions.as_slice()
}

/// The operations.
fn ops_of(image: &Image) -> &[ImageOp]
    ensures { result.now ≡ image.now.ops }
{
    image.ops.as_slice()
}

/// The operation of a number.
pub(crate) fn op_at(image: &Image, place: usize) -> &ImageOp
    requires { place < length image.now.ops }
    ensures is { slice_get image.now.ops place ≡ Some result.now }
    ensures right { IsOperation (scope_of image.now) result.now }
{
    images_are_right(image);
    let ops = ops_of(image);
    let op = &ops[place];
    op
}
