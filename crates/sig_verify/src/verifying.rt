//! Verifying an image.

ghost use Rattle.std.specs.Prelude.{◌≡◌, ◌⊎◌};
ghost use Rattle.sig_verify.specs.Prelude.{ℕ, IfErr, IfOk, IsErrAnd, IsSoundImage};
ghost use Rattle.sig_verify.specs.inner.Known.{IsVerdict, IsWant};
ghost use Rattle.sig_verify.specs.Verifying.{IsBeyondBound, IsFirstUnsound};

use crate::answer::VerifyAnswer;
use crate::parts::ops_of;
use crate::verified::Verified;
use crate::verifier::Verifier;
use sig_dd::DdAnswer;
use sig_file::Image;
use std::alloc::Global;

/// The first operation of an image that is not sound, if there is one.
fn first_unsound(alloc: Global, image: &Image) -> Result<Option<usize>, DdAnswer>
    ensures verdict { IfOk result (IsVerdict image.now) }
    ensures want { IfErr result (IsWant image.now) }
{
    let mut verifier = Verifier::new(alloc, image)?;
    for n in 0..ops_of(image) {
        let sound = verifier.take(image, n)?;
        if !sound {
            return Ok(Some(n));
        }
    }
    Ok(None)
}

/// Whether an image is sound (`IsSoundImage` of sig_file): it is given back as verified, or with the first operation that is
/// not. The nodes of diagrams may not suffice for an image of n nodes, k conditions and o operations only where
/// n + k + 16 * 4^k * (o + 1) is above 8,000,000. The image is handed back on each refusal.
pub fn verify(alloc: Global, image: Image) -> Result<Verified, (Image, VerifyAnswer)>
    ensures verified { IfOk result (λ verified. verified ≡ image) }
    ensures sound { IfOk result IsSoundImage }
    ensures kept { IfErr result (λ refused. refused.0 ≡ image) }

    // The operation that is named is the first that is not sound; and where there is one, it is named, unless the nodes
    // of diagrams or memory did not suffice.
    ensures unsound { IfErr result (λ refused. (n : ℕ) → refused.1 ≡ VerifyAnswer.Unsound n → IsFirstUnsound image n) }
    ensures refused { (n : ℕ) → IsFirstUnsound image n → IsErrAnd result (λ refused. (refused.1 ≡ VerifyAnswer.Unsound n)
        ⊎ ((refused.1 ≡ VerifyAnswer.OutOfMemory) ⊎ (refused.1 ≡ VerifyAnswer.Budget 8000000))) }
    ensures budget { IfErr result (λ refused. (nodes : ℕ) → refused.1 ≡ VerifyAnswer.Budget nodes
        → (nodes ≡ 8000000) × IsBeyondBound image) }
{
    match first_unsound(alloc, &image) {
        Ok(None) => Ok(Verified { image }),
        Ok(Some(n)) => Err((image, VerifyAnswer::Unsound(n))),
        Err(DdAnswer::Budget(nodes)) => Err((image, VerifyAnswer::Budget(nodes))),
        Err(DdAnswer::OutOfMemory) => Err((image, VerifyAnswer::OutOfMemory)),
    }
}
