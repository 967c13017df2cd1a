//! How nodes, and answers to questions about them, are hashed.

use std::hash::{BuildHasher, FoldHasher, Hasher};

/// A hash by a key, on which no answer depends. Whoever makes functions from a file that others wrote takes a key that this
/// file does not know, so that no nodes of it are made to fall together.
#[derive(Clone, Copy)]
pub struct Keyed {
    initial: FoldHasher,
}

impl Keyed {
    /// The hash by this key.
    pub fn by(key: u64) -> Keyed {
        let mut initial = FoldHasher::default();
        initial.write_u64(key);
        Keyed { initial }
    }
}

impl BuildHasher for Keyed {
    type Hasher = FoldHasher;

    ghost build_hasher = { λ keyed. keyed.initial };

    fn build_hasher(&self) -> FoldHasher {
        self.initial
    }
}
