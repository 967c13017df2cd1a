//! What holds of every image.

ghost use Rattle.std.specs.Prelude.{◌≡◌};
ghost use Rattle.sig_file.specs.Prelude.{ℕ, IsTrue, Some, length, slice_get, take, SigId};
ghost use Rattle.sig_dd.specs.Nodes.{IsReduced};
ghost use Rattle.sig_file.specs.Guarded.{nodes_in};
ghost use Rattle.sig_file.specs.Images.{ImageView, IsImage, IsMemory, IsNodeBehind, IsOperation, IsSignalBehind, is_condition_behind, scope_of};

use crate::images::{ImageMemory, ImageNode, ImageOp, ImageSignal};

/// A law: each item of an image is right behind those before it.
pub fn items_of_images_are_right()
    ensures signals { (image : ImageView) (n : ℕ) (signal : ImageSignal) → IsImage image → slice_get image.signals n ≡ Some signal
        → IsSignalBehind image.inputs (take n image.signals) signal }
    ensures conditions { (image : ImageView) (n : ℕ) (x : SigId) → IsImage image → slice_get image.conditions n ≡ Some x
        → IsTrue (is_condition_behind image.signals (take n image.conditions) x.0) }
    ensures memories { (image : ImageView) (n : ℕ) (memory : ImageMemory) → IsImage image → slice_get image.memories n ≡ Some memory → IsMemory memory }
    ensures nodes { (image : ImageView) (n : ℕ) (node : ImageNode) → IsImage image → slice_get image.nodes n ≡ Some node
        → IsNodeBehind (length image.conditions) (take n image.nodes) node }
    ensures ops { (image : ImageView) (n : ℕ) (op : ImageOp) → IsImage image → slice_get image.ops n ≡ Some op → IsOperation (scope_of image) op }
{}

/// A law: the nodes of an image are those of reduced and ordered diagrams, each once.
pub fn nodes_of_images_are_reduced()
    ensures { (image : ImageView) → IsImage image → IsReduced (nodes_in image.nodes) }
{}
