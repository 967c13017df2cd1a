//! The key by which the diagrams of an image are hashed.

use sig_dd::Keyed;
use sig_file::Image;
use std::hash::{DefaultHasher, Hasher};

/// A key that hangs on each node of an image, so that who chooses nodes to fall together by a key gets another one.
pub(crate) fn key_of(image: &Image) -> Keyed {
    let mut hasher = DefaultHasher::default();
    for node in image.nodes.as_slice() {
        hasher.write_u32(node.variable);
        hasher.write_u32(node.low);
        hasher.write_u32(node.high);
    }
    Keyed::by(hasher.finish())
}
