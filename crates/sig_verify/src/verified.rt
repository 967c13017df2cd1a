//! Verified images.

use sig_file::Image;
use std::marker::Model;

/// An image that is sound: whatever its conditions are, each operation that is done reads what was written, and each
/// condition that the walk of its guard asks was written. Contracts see the image.
#[derive(Drop)]
pub struct Verified {
    pub image: Image,
}

impl Model for Verified {
    ghost use Rattle.sig_file.specs.Images.{ImageView};
    ghost use Rattle.sig_file.specs.Guarded.{IsSoundImage};

    ghost Value = { ImageView };

    ghost view = { λ verified. verified.image };

    ghost invariant = { λ verified. IsSoundImage verified.image };
}
