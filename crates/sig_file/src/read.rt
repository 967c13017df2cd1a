//! Images from bytes.

ghost use Rattle.std.specs.Prelude.{◌≡◌, ◌≤◌, ◌⊎◌};
ghost use Rattle.sig_file.specs.Prelude.{Err, IfOk, IsErrAnd, MatchResult, ℕ, length};
ghost use Rattle.sig_file.specs.Bytes.{image_bytes};
ghost use Rattle.sig_file.specs.Fields.{IsBrokenAt, fields_of_file, file_at};
ghost use Rattle.sig_file.specs.Images.{ImageView, IsImage};
ghost use Rattle.sig_file.specs.inner.Reading.{Gives};
ghost use Rattle.sig_file.specs.inner.Parts.{view_of};
ghost use Rattle.sig_file.specs.declared.limits.TheConstants.{IMAGE_BYTES};

use crate::answer::ImageAnswer;
use crate::counts::counts_at;
use crate::images::{Image, ImageMemory, ImageNode, ImageOp, ImageSignal};
use crate::operation::Scope;
use crate::parts::{conditions_at, memories_at, nodes_at, signals_at};
use crate::stop::Stop;
use sig_base::SigId;
use std::alloc::Global;

/// The parts of an image.
#[derive(Drop)]
pub struct Parts {
    pub signals: Vec<ImageSignal>,
    pub inputs: u32,
    pub outputs: u32,
    pub conditions: Vec<SigId>,
    pub memories: Vec<ImageMemory>,
    pub nodes: Vec<ImageNode>,
    pub ops: Vec<ImageOp>,
}

/// The parts of an image, and the bytes behind them.
#[tactic(auto, unfolding(crate::specs::Fields::fields_of_file))]
fn parts_at(alloc: Global, bytes: &[u8]) -> Result<(Parts, &[u8]), Stop>
    ensures { Gives (λ x. (view_of x.0, x.1.now)) result (fields_of_file bytes.now) }
{
    let (counts, rest) = counts_at(bytes)?;
    let (signals, rest) = signals_at(alloc, counts.inputs, counts.signals, rest)?;
    let (conditions, rest) = conditions_at(alloc, &signals, counts.conditions, rest)?;
    let (memories, rest) = memories_at(alloc, counts.memories, rest)?;
    let (nodes, rest) = nodes_at(alloc, counts.conditions, counts.nodes, rest)?;
    let scope = Scope {
        signals: &signals,
        inputs: counts.inputs,
        memories: &memories,
        nodes: counts.nodes,
    };
    let (ops, rest) = scope.ops_at(alloc, counts.ops, rest)?;
    let parts = Parts {
        signals,
        inputs: counts.inputs,
        outputs: counts.outputs,
        conditions,
        memories,
        nodes,
        ops,
    };
    Ok((parts, rest))
}

/// The parts of the image whose bytes these are.
#[tactic(auto, unfolding(crate::specs::Fields::file_at))]
fn file_at(alloc: Global, bytes: &[u8]) -> Result<Parts, Stop>
    ensures { Gives view_of result (file_at bytes.now) }
{
    let (parts, rest) = parts_at(alloc, bytes)?;
    if !rest.is_empty() {
        return Err(Stop::Broken(rest.len()));
    }
    Ok(parts)
}

/// The image whose bytes these are, or the first byte of the first field that is broken or cut off, or
/// the first byte behind the last operation. Only memory can be wanting besides.
pub fn read_image(alloc: Global, bytes: &[u8]) -> Result<Image, ImageAnswer>
    requires few { length bytes.now ≤ IMAGE_BYTES }

    // The image that is given is right, and these are its bytes.
    ensures right { IfOk result IsImage }
    ensures bytes { IfOk result (λ image. image_bytes image ≡ bytes.now) }

    // Where the bytes are a right image's, this is given, unless memory runs out.
    ensures given { (image : ImageView) → IsImage image → image_bytes image ≡ bytes.now →
        MatchResult result (λ found. found ≡ image) (λ answer. answer ≡ ImageAnswer.OutOfMemory) }

    // The first broken field is named, and where there is one, it is, unless memory runs out.
    ensures broken { (offset : ℕ) → result ≡ Err (ImageAnswer.BadImage offset) → IsBrokenAt bytes.now offset }
    ensures refused { (offset : ℕ) → IsBrokenAt bytes.now offset →
        IsErrAnd result (λ answer. (answer ≡ ImageAnswer.OutOfMemory) ⊎ (answer ≡ ImageAnswer.BadImage offset)) }
{
    match file_at(alloc, bytes) {
        Ok(parts) => Ok(Image {
            signals: parts.signals,
            inputs: parts.inputs,
            outputs: parts.outputs,
            conditions: parts.conditions,
            memories: parts.memories,
            nodes: parts.nodes,
            ops: parts.ops,
        }),
        Err(Stop::Broken(left)) => Err(ImageAnswer::BadImage(bytes.len() - left)),
        Err(Stop::Memory) => Err(ImageAnswer::OutOfMemory),
    }
}
