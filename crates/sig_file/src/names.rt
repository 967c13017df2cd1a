//! Names in a row.

ghost use Rattle.std.specs.Prelude.{◌≡◌, ◌++◌, ◌∷◌};
ghost use Rattle.sig_file.specs.Prelude.{[], ℕ, List, OnOk, bytes_eq, list_any};
ghost use Rattle.sig_file.specs.inner.Names.{IsSetOf};

use std::alloc::{AllocError, Global};
use std::collections::BTreeMap;

/// The names of some signals.
#[derive(Drop)]
pub struct Names<'a> {
    set: BTreeMap<&'a [u8], ()>,
}

impl<'a> Names<'a> {
    /// No name.
    pub fn new(alloc: Global) -> Names<'a>
        ensures { IsSetOf [] result.set }
    {
        Names {
            set: BTreeMap::new(alloc),
        }
    }

    /// Adds a name.
    pub fn add(&mut self, name: &'a [u8]) -> Result<(), AllocError>
        ensures { (names : List (List ℕ)) → IsSetOf names self.old.set → OnOk result (IsSetOf (names ++ name.now ∷ []) self.new.set) }
    {
        self.set.insert(name, ())?;
        Ok(())
    }

    /// Whether a name is among them.
    pub fn has(&self, name: &[u8]) -> bool
        ensures { (names : List (List ℕ)) → IsSetOf names self.now.set → result ≡ list_any (bytes_eq name.now) names }
    {
        self.set.contains_key(name)
    }
}
