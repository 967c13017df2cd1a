//! A hierarchy of clocks.

use std::marker::Model;

/// The parent of each class: the last class before it whose guard its guard implies. Class 0, that
/// of the roots, has none. Contracts see the list.
#[derive(Debug, Drop)]
pub struct Tree {
    pub parent: Vec<Option<u32>>,
}

impl Model for Tree {
    ghost use Rattle.std.specs.Prelude.{ℕ, List, Option};

    ghost Value = { List (Option ℕ) };

    ghost view = { λ tree. tree.parent.items };
}
