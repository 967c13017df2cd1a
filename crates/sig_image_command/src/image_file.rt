//! The image that the bytes of a file are.

ghost use Rattle.std.specs.Prelude.{◌≡◌, ◌≤◌, ℕ, IfErr, IfOk, length};
ghost use Rattle.sig_file.specs.Fields.{IsBrokenAt};
ghost use Rattle.sig_file.specs.Guarded.{IsSoundImage};
ghost use Rattle.sig_file.specs.Images.{IsImage};
ghost use Rattle.sig_file.specs.declared.limits.TheConstants.{IMAGE_BYTES};
ghost use Rattle.sig_outcome.specs.Refusals.{IsOfImage};
ghost use Rattle.sig_verify.specs.Verifying.{IsBeyondBound, IsFirstUnsound};
ghost use Rattle.sig_image_command.specs.ImageFiles.{IsBudget, IsBrokenFile, IsFileOf, IsSoundFile, LacksNodes, RefusesImage, bad_image, unsound_image};

use sig_exec::{Verified, VerifyAnswer, verify};
use sig_file::{Image, ImageAnswer, read_image};
use sig_outcome::Refusal;
use std::alloc::{AllocError, Global};

/// The verified image whose bytes the file of this name holds.
pub fn verified_of<'a>(alloc: Global, bytes: &[u8], name: &str) -> Result<Verified, Refusal<'a>>
    requires short { length bytes.now ≤ IMAGE_BYTES }
    ensures sound { IfOk result (λ image. IsSoundFile bytes.now image) }
    ensures refused { IfErr result (IsOfImage (λ line. RefusesImage name.now bytes.now line) (LacksNodes bytes.now)) }
{
    let image = image_of(alloc, bytes, name)?;
    verified(alloc, image, name)
}

/// The image whose bytes the file of this name holds.
fn image_of<'a>(alloc: Global, bytes: &[u8], name: &str) -> Result<Image, Refusal<'a>>
    requires short { length bytes.now ≤ IMAGE_BYTES }
    ensures file { IfOk result (λ image. IsFileOf bytes.now image) }
    ensures refused { IfErr result (IsOfImage (λ line. IsBrokenFile name.now bytes.now line) (λ nodes. ⊥)) }
{
    match read_image(alloc, bytes) {
        Ok(image) => Ok(image),
        Err(ImageAnswer::BadImage(offset)) => Err(refused_bytes(alloc, name, offset)),
        Err(ImageAnswer::OutOfMemory) => Err(Refusal::OutOfMemory),
    }
}

/// An image of the file of this name, verified.
fn verified<'a>(alloc: Global, image: Image, name: &str) -> Result<Verified, Refusal<'a>>
    ensures same { IfOk result (λ verified. verified ≡ image) }
    ensures sound { IfOk result IsSoundImage }
    ensures refused { IfErr result (IsOfImage
        (λ line. (n : ℕ) × IsFirstUnsound image n × (line ≡ unsound_image name.now n))
        (λ nodes. IsBudget nodes × IsBeyondBound image)) }
{
    match verify(alloc, image) {
        Ok(verified) => Ok(verified),
        Err((_, VerifyAnswer::Unsound(n))) => Err(refused_operation(alloc, name, n)),
        Err((_, VerifyAnswer::Budget(nodes))) => Err(Refusal::Budget(nodes)),
        Err((_, VerifyAnswer::OutOfMemory)) => Err(Refusal::OutOfMemory),
    }
}

/// The image of a verified one.
pub fn image_in(verified: &Verified) -> &Image
    ensures image { result.now ≡ verified.now }
    ensures right { IsImage verified.now }
    ensures sound { IsSoundImage verified.now }
{
    // What holds of every image is known where its fields are read.
    let image = &verified.image;
    let _signals = &image.signals;
    image
}

/// The refusal of bytes whose first broken field begins here, or want of memory for its line.
fn refused_bytes<'a>(alloc: Global, name: &str, offset: usize) -> Refusal<'a>
    ensures { IsOfImage (λ line. line ≡ bad_image name.now offset) (λ nodes. ⊥) result }
{
    match format!(in alloc; "error: {name}: bad image at byte {offset}") {
        Ok(line) => Refusal::Data(line),
        Err(AllocError) => Refusal::OutOfMemory,
    }
}

/// The refusal of an image whose operation of this number is not sound, or want of memory for its line.
fn refused_operation<'a>(alloc: Global, name: &str, n: usize) -> Refusal<'a>
    ensures { IsOfImage (λ line. line ≡ unsound_image name.now n) (λ nodes. ⊥) result }
{
    match format!(in alloc; "error: {name}: operation {n} is not sound") {
        Ok(line) => Refusal::Data(line),
        Err(AllocError) => Refusal::OutOfMemory,
    }
}
