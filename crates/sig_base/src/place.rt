//! Places in a run, and their packing into one word.

ghost use Rattle.std.specs.Prelude.{◌≡◌, ℕ, ◌+◌, ◌*◌, ◌<◌, ◌≤◌, ◌^◌, ◌-◌, ◌⊎◌, ◌↔◌};
ghost use Rattle.sig_base.specs.Places.{IsBefore, IsNotAfter, no_place, packed};
ghost use Rattle.sig_base.specs.declared.place.Place.{Place};

/// A place in a run: an instant, counted from 1, and a position in it. Places are ordered by
/// instant, then by position.
#[derive(Clone, Copy, Debug, PartialEq, Eq, PartialOrd, Ord, Hash)]
pub struct Place {
    pub instant: u32,
    pub pos: u32,
}

impl Place {
    ghost use Rattle.sig_base.specs.Places.{packed};

    /// The place as one word. The word `u64::MAX` stands for no place.
    pub fn pack(self) -> u64
        ensures { result ≡ packed self }
    {
        self.instant as u64 * 0x1_0000_0000 + self.pos as u64
    }

    /// The place that packs into this word.
    pub fn unpack(word: u64) -> Place
        ensures { packed result ≡ word }
    {
        Place {
            instant: (word / 0x1_0000_0000) as u32,
            pos: (word % 0x1_0000_0000) as u32,
        }
    }
}

/// A law: one word packs at most one place, and words are ordered as their places are, by instant
/// and then by position.
pub fn packing_keeps_order()
    ensures one { (i j p q : ℕ) → p < 2 ^ 32 → q < 2 ^ 32 → i * 2 ^ 32 + p ≡ j * 2 ^ 32 + q → (i ≡ j) × (p ≡ q) }
    ensures order { (i j p q : ℕ) → p < 2 ^ 32 → q < 2 ^ 32 →
        (i * 2 ^ 32 + p < j * 2 ^ 32 + q) ↔ ((i < j) ⊎ ((i ≡ j) × (p < q))) }
{}

/// A law: of two places one is before the other, or they are the same, and no place is before
/// itself. A place that is before another, or not after it, is so too of all that this one is before
/// or not after.
pub fn places_are_ordered()
    ensures total { (p q : Place) → IsBefore p q ⊎ ((p ≡ q) ⊎ IsBefore q p) }
    ensures other { (p : Place) → IsBefore p p → ⊥ }
    ensures before { (p q r : Place) → IsBefore p q → IsBefore q r → IsBefore p r }
    ensures before_not_after { (p q r : Place) → IsBefore p q → IsNotAfter q r → IsBefore p r }
    ensures not_after_before { (p q r : Place) → IsNotAfter p q → IsBefore q r → IsBefore p r }
    ensures not_after { (p q r : Place) → IsNotAfter p q → IsNotAfter q r → IsNotAfter p r }
    ensures same { (p q : Place) → IsNotAfter p q ↔ (IsBefore p q ⊎ (p ≡ q)) }
    ensures turned { (p q : Place) → IsNotAfter p q ↔ (IsBefore q p → ⊥) }
{}

/// A law: the words of places are ordered as the places are, one word packs one place, and where the
/// instant is not the greatest number of 32 bits, the word is before that of no place.
pub fn words_are_ordered()
    ensures before { (p q : Place) → p.pos < 2 ^ 32 → q.pos < 2 ^ 32 → (packed p < packed q) ↔ IsBefore p q }
    ensures not_after { (p q : Place) → p.pos < 2 ^ 32 → q.pos < 2 ^ 32 → (packed p ≤ packed q) ↔ IsNotAfter p q }
    ensures one { (p q : Place) → p.pos < 2 ^ 32 → q.pos < 2 ^ 32 → packed p ≡ packed q → p ≡ q }
    ensures some { (p : Place) → p.instant < 2 ^ 32 - 1 → p.pos < 2 ^ 32 → packed p < no_place }
{}
