//! The images of programs and of bytes, read, written again and verified.

use anyhow::{Context, Result, bail};
use sig_back::back;
use sig_file::limits::IMAGE_BYTES;
use sig_file::{Image, ImageAnswer, has_names, image, read_image, write_image};
use sig_plan::Plan;
use sig_rows_base::kernel_of;
use sig_verify::{Verified, VerifyAnswer, verify};
use std::alloc::{AllocError, Global};
use std::fmt::Write;

/// The plan of a program that has one.
fn plan_of(alloc: Global, program: &[u8]) -> Result<Plan> {
    Ok(back(alloc, kernel_of(alloc, program)?)?)
}

/// The bytes of a program's image.
fn built(alloc: Global, program: &[u8]) -> Result<Vec<u8>> {
    let plan = plan_of(alloc, program)?;
    image_bytes(alloc, &plan)
}

/// The bytes of a plan's image.
fn image_bytes(alloc: Global, plan: &Plan) -> Result<Vec<u8>> {
    if !has_names(&plan.kernel) {
        bail!("a name is too long, or has other bytes");
    }
    let made = image(alloc, plan)?;
    Ok(write_image(alloc, &made)?)
}

/// The bytes of an image by words: of the program's image, where the first one is `+`, with what the others tell.
pub(crate) fn image_of(alloc: Global, program: &[u8], text: &str) -> Result<Vec<u8>> {
    let (mut bytes, words) = match text.strip_prefix('+') {
        Some(words) => (built(alloc, program)?, words),
        None => (Vec::new(alloc), text),
    };
    put_words(&mut bytes, words)?;
    Ok(bytes)
}

fn put_words(bytes: &mut Vec<u8>, words: &str) -> Result<()> {
    for word in words.split_whitespace() {
        put_word(bytes, word.trim_end_matches(';'))?;
    }
    Ok(())
}

/// Adds what a word tells: a byte or, behind a dot, a number of four bytes; or sets the byte at a place.
fn put_word(bytes: &mut Vec<u8>, word: &str) -> Result<()> {
    if let Some((at, value)) = word.split_once('=') {
        put_byte(bytes.as_mut_slice(), at.parse::<usize>()?, value)
    } else if let Some(number) = word.strip_prefix('.') {
        Ok(bytes.extend_from_slice(&number.parse::<u32>()?.to_be_bytes())?)
    } else {
        Ok(bytes.push(word.parse::<u8>()?)?)
    }
}

/// Sets the byte at a place.
fn put_byte(bytes: &mut [u8], at: usize, value: &str) -> Result<()> {
    *bytes.get_mut(at).context("there is no such byte")? = value.parse::<u8>()?;
    Ok(())
}

/// Adds whether the program's image is of these bytes.
pub(crate) fn write_built(
    alloc: Global,
    out: &mut String,
    program: &[u8],
    text: &str,
) -> Result<()> {
    let bytes = built(alloc, program)?;
    let wanted = image_of(alloc, program, text)?;
    Ok(write!(out, "{}", bytes.as_slice() == wanted.as_slice())?)
}

/// Adds whether an image is written again, whether it has more than 32,000 nodes, and its first operation that is not
/// sound; or the refusal.
pub(crate) fn write_image_read(alloc: Global, out: &mut String, bytes: &[u8]) -> Result<()> {
    if bytes.len() > IMAGE_BYTES {
        bail!("the image is too long");
    }
    match read_image(alloc, bytes) {
        Ok(image) => write_verified(alloc, out, bytes, image),
        Err(answer) => Ok(write!(out, "{answer}")?),
    }
}

/// The same of an image that was read from these bytes.
fn write_verified(alloc: Global, out: &mut String, bytes: &[u8], image: Image) -> Result<()> {
    let written = write_image(alloc, &image)?;
    let is_same = written.as_slice() == bytes;
    let is_large = image.nodes.len() > 32_000;
    let unsound = unsound_of(alloc, image)?;
    Ok(write!(
        out,
        "again {is_same}, large {is_large}, unsound {unsound:?}"
    )?)
}

/// The first operation of an image that is not sound.
fn unsound_of(alloc: Global, image: Image) -> Result<Option<usize>> {
    match verify(alloc, image) {
        Ok(_) => Ok(None),
        Err((_, VerifyAnswer::Unsound(n))) => Ok(Some(n)),
        Err(_) => bail!("nodes or memory did not suffice"),
    }
}

/// The verified image that words tell, as `image_of` has them.
pub(crate) fn verified(alloc: Global, program: &[u8], text: &str) -> Result<Verified> {
    let bytes = image_of(alloc, program, text)?;
    verified_of(alloc, &bytes)
}

fn verified_of(alloc: Global, bytes: &[u8]) -> Result<Verified> {
    if bytes.len() > IMAGE_BYTES {
        bail!("the image is too long");
    }
    match verify(alloc, read_image(alloc, bytes)?) {
        Ok(verified) => Ok(verified),
        Err(_) => bail!("the image is not verified"),
    }
}

/// Adds, for each length of the image's beginnings, where the first broken field begins: each that begins at the cut, and
/// others, which none should be, with the cut.
pub(crate) fn write_cuts(alloc: Global, out: &mut String, bytes: &[u8]) -> Result<(), AllocError> {
    let mut field = 0;
    for at in 0..bytes.len() {
        let offset = broken(alloc, &bytes[..at]);
        if offset == at {
            field = at;
            write!(out, "{at} ")?;
        } else if offset != field {
            write!(out, "{offset}<{at} ")?;
        }
    }
    let _ = out.pop();
    Ok(())
}

/// Adds where the first broken field begins with each of these values for a byte of the image.
pub(crate) fn write_sets(
    alloc: Global,
    out: &mut String,
    program: &[u8],
    text: &str,
) -> Result<()> {
    let (at, values) = text.split_once(' ').context("there are no values")?;
    let at = at.parse::<usize>()?;
    let mut bytes = built(alloc, program)?;
    put_values(alloc, out, bytes.as_mut_slice(), at, values)
}

fn put_values(
    alloc: Global,
    out: &mut String,
    bytes: &mut [u8],
    at: usize,
    values: &str,
) -> Result<()> {
    for value in values.split(' ') {
        put_byte(bytes, at, value)?;
        write!(out, "{} ", broken(alloc, bytes))?;
    }
    let _ = out.pop();
    Ok(())
}

/// Where the first broken field begins; 255 for an image, and another number where memory was wanting.
fn broken(alloc: Global, bytes: &[u8]) -> usize {
    if bytes.len() > IMAGE_BYTES {
        return usize::MAX;
    }
    match read_image(alloc, bytes) {
        Ok(_) => 255,
        Err(ImageAnswer::BadImage(offset)) => offset,
        Err(ImageAnswer::OutOfMemory) => usize::MAX,
    }
}
