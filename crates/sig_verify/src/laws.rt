//! What is so of every image. The function of a law does nothing when it runs.

ghost use Rattle.std.specs.Prelude.{◌≡◌, ◌⊎◌};
ghost use Rattle.sig_verify.specs.Prelude.{ℕ, ImageView, IsSoundImage};
ghost use Rattle.sig_verify.specs.Verifying.{IsFirstUnsound};

/// A law: an image is sound, or one of its operations is the first that is not; and it is one of these alone.
pub fn images_are_sound_or_not()
    ensures verdict { (image : ImageView) → IsSoundImage image ⊎ ((n : ℕ) × IsFirstUnsound image n) }
    ensures apart { (image : ImageView) (n : ℕ) → IsSoundImage image → IsFirstUnsound image n → ⊥ }
    ensures one { (image : ImageView) (m n : ℕ) → IsFirstUnsound image m → IsFirstUnsound image n → m ≡ n }
{}
