//! Texts in a row, each found by its first place.

ghost use Rattle.std.specs.Prelude.{◌≡◌, ◌↔◌, ◌++◌, ◌∷◌, ◌<◌};
ghost use Rattle.sig_scope.specs.Prelude.{[], ℕ, List, length, map, IfOk, OnOk, IsTrue, IfSome, Contains, nat_cmp, slice_cmp};
ghost use Rattle.std.specs.BTreeMap as tree;
ghost use Rattle.sig_scope.specs.Places.{place_of};

use std::alloc::{AllocError, Global};
use std::collections::BTreeMap;
use std::marker::Model;

/// Texts in the order in which they were added.
#[derive(Drop)]
pub struct Texts<'a> {
    texts: Vec<&'a [u8]>,
    places: BTreeMap<&'a [u8], usize>,
}

impl<'a> Model for Texts<'a> {
    ghost Value = { List (List ℕ) };

    ghost view = { λ t. map (λ text. text.now) t.texts.items };

    ghost invariant = { λ t. (q : List ℕ) → tree.get_by (λ k. slice_cmp nat_cmp q k.now) t.places ≡ place_of (map (λ text. text.now) t.texts.items) q };
}

impl<'a> Texts<'a> {
    /// No text.
    pub fn new(alloc: Global) -> Texts<'a>
        ensures { result ≡ [] }
    {
        Texts {
            texts: Vec::new(alloc),
            places: BTreeMap::new(alloc),
        }
    }

    /// Adds a text, and tells whether it was there before.
    pub fn add(&mut self, text: &'a [u8]) -> Result<bool, AllocError>
        ensures before { IfOk result (λ before. IsTrue before ↔ Contains self.old text.now) }
        ensures added { OnOk result (self.new ≡ self.old ++ text.now ∷ []) }
    {
        let before = self.has(text);
        let place = self.texts.len();
        self.texts.push(text)?;
        if !before {
            if let Err(wanting) = self.places.insert(text, place) {
                self.texts.pop();
                return Err(AllocError::from(wanting));
            }
        }
        Ok(before)
    }

    /// The first place of a text.
    pub fn place(&self, text: &[u8]) -> Option<usize>
        ensures { result ≡ place_of self.now text.now }
    {
        self.places.get(text).copied()
    }

    /// Whether a text is among them.
    pub fn has(&self, text: &[u8]) -> bool
        ensures { IsTrue result ↔ Contains self.now text.now }
    {
        self.place(text).is_some()
    }
}
