//! Reading the files of a run of an image.

ghost use Rattle.std.specs.Prelude.{◌≡◌, ◌≤◌, Some, IfErr, IfOk, IfSome, OnOk, length};
ghost use Rattle.sig_base.specs.declared.limits.TheConstants.{FLOW_BYTES};
ghost use Rattle.sig_text.specs.Files.{name_where_there};
ghost use Rattle.sig_flow.specs.Flows.{AreFlows};
ghost use Rattle.sig_file.specs.Images.{IsImage};
ghost use Rattle.sig_exec.specs.Running.{AreFlowsOf};
ghost use Rattle.sig_outcome.specs.Outcomes.{Good};
ghost use Rattle.sig_outcome.specs.Reading.{Reads};
ghost use Rattle.sig_outcome.specs.Refusals.{HasCount, IsOfData, IsOwn, outcome_of, status_of};
ghost use Rattle.sig_outcome.specs.Tasks.{Stops};
ghost use Rattle.sig_loaded.specs.Runs.{AtFlows, FindsFlows, IsAboutFlows, RefusesFlows};
ghost use Rattle.sig_image_command.specs.Execs.{executing, input_of, inputs_of_image};
ghost use Rattle.sig_image_command.specs.ImageFiles.{AtImage, FindsImage, HoldsBeyondVerifying, IsAboutFile};

use crate::image_file::verified_of;
use sig_base::{Signal, Span, Text};
use sig_exec::Verified;
use sig_file::{Image, ImageSignal};
use sig_flow::read_named;
use sig_kernel::Inputs;
use sig_loaded::refused_flows;
use sig_outcome::{Refusal, read_data};
use sig_text::Files;
use sig_words::Settings;
use std::alloc::{AllocError, Global};

/// What the files of a run hold: a verified image, and the flows of its inputs.
#[derive(Drop)]
pub struct LoadedImage {
    pub image: Verified,
    pub inputs: Inputs,
}

/// The image and the flows of a run. The flow file is asked for behind an image that is sound.
pub fn load<'a, F: Files>(
    alloc: Global,
    files: &mut F,
    image: &'a str,
    flows: &'a str,
    settings: Settings,
) -> Result<LoadedImage, Refusal<'a>>
    ensures image { IfSome (F.contents files.old) (λ held. IfOk result (λ loaded.
        FindsImage (held image.now) image.now (Good loaded.image))) }
    ensures flows { IfSome (F.contents files.old) (λ held. IfOk result (λ loaded.
        FindsFlows (held flows.now) flows.now (inputs_of_image loaded.image) (Good loaded.inputs))) }
    ensures fit { IfOk result (λ loaded. AreFlowsOf loaded.image loaded.inputs) }
    ensures last { IfSome (F.contents files.old) (λ held. IfOk result (λ _.
        F.at files.new ≡ name_where_there held flows.now)) }
    ensures read { OnOk result (Reads (F.contents files.old) (F.contents files.new) (F.at files.new)
        (F.misses files.old) (F.misses files.new) (F.faults files.old) (F.faults files.new) flows.now) }

    // Where nodes do not suffice, no other file than the image was begun.
    ensures budget { IfSome (F.contents files.old) (λ held. IfErr result (λ refusal.
        status_of refusal ≡ 8 → F.at files.new ≡ name_where_there held image.now)) }

    // A refusal is the one that told contents call for, if they alone decide it.
    ensures stops { IfErr result (Stops (executing image.now flows.now settings)
        (F.contents files.old) (F.at files.old) (F.at files.new)
        (F.misses files.old) (F.misses files.new) (F.faults files.old) (F.faults files.new)) }
{
    let image = load_image(alloc, files, image)?;
    let inputs = load_flows(alloc, files, flows, &image)?;
    Ok(LoadedImage { image, inputs })
}

/// The verified image that the file of this name holds.
fn load_image<'a, F: Files>(
    alloc: Global,
    files: &mut F,
    name: &'a str,
) -> Result<Verified, Refusal<'a>>
    ensures image { IfSome (F.contents files.old) (λ held.
        IfOk result (λ image. FindsImage (held name.now) name.now (Good image))) }
    ensures refused { IfSome (F.contents files.old) (λ held. IfErr result (λ refusal.
        IsOwn refusal (F.faults files.old) (F.faults files.new) →
        AtImage held name.now (λ _ _. ⊥) (outcome_of refusal (Some name.now)))) }
    ensures budget { IfSome (F.contents files.old) (λ held. IfErr result (λ refusal.
        status_of refusal ≡ 8 → HoldsBeyondVerifying (held name.now))) }
    ensures about { IfErr result (IsAboutFile name.now) }
    ensures counted { IfErr result (HasCount (F.contents files.old) (F.at files.new)
        (F.misses files.old) (F.misses files.new) (F.faults files.old) (F.faults files.new)) }
    ensures read { Reads (F.contents files.old) (F.contents files.new) (F.at files.new)
        (F.misses files.old) (F.misses files.new) (F.faults files.old) (F.faults files.new) name.now }
{
    let bytes = read_data(alloc, files, name)?;
    verified_of(alloc, &bytes, name)
}

/// The flows that the file of this name has for the inputs of an image.
fn load_flows<'a, F: Files>(
    alloc: Global,
    files: &mut F,
    name: &'a str,
    image: &Verified,
) -> Result<Inputs, Refusal<'a>>
    ensures flows { IfSome (F.contents files.old) (λ held. IfOk result (λ flows.
        FindsFlows (held name.now) name.now (inputs_of_image image.now) (Good flows))) }
    ensures fit { IfOk result (AreFlowsOf image.now) }
    ensures refused { IfSome (F.contents files.old) (λ held. IfErr result (λ refusal.
        IsOwn refusal (F.faults files.old) (F.faults files.new) →
        AtFlows held name.now (inputs_of_image image.now) (λ _ _. ⊥) (outcome_of refusal (Some name.now)))) }
    ensures about { IfErr result (IsAboutFlows name.now) }
    ensures counted { IfErr result (HasCount (F.contents files.old) (F.at files.new)
        (F.misses files.old) (F.misses files.new) (F.faults files.old) (F.faults files.new)) }
    ensures read { Reads (F.contents files.old) (F.contents files.new) (F.at files.new)
        (F.misses files.old) (F.misses files.new) (F.faults files.old) (F.faults files.new) name.now }
{
    let bytes = read_data(alloc, files, name)?;
    flows_of(alloc, &bytes, name, &image.image)
}

/// The flows of an image's inputs that the bytes of the file of this name are.
fn flows_of<'a>(
    alloc: Global,
    bytes: &[u8],
    name: &str,
    image: &Image,
) -> Result<Inputs, Refusal<'a>>
    requires short { length bytes.now ≤ FLOW_BYTES }
    ensures flows { IfOk result (AreFlows (inputs_of_image image.now) bytes.now) }
    ensures fit { IfOk result (AreFlowsOf image.now) }
    ensures refused { IfErr result (IsOfData (λ line. RefusesFlows name.now (inputs_of_image image.now) bytes.now line)) }
{
    let Ok(inputs) = inputs_of(alloc, image) else {
        return Err(Refusal::OutOfMemory);
    };
    match read_named(alloc, bytes, &inputs) {
        Ok(flows) => Ok(flows),
        Err(answer) => Err(refused_flows(alloc, name, answer)),
    }
}

/// The inputs of an image, as signals.
fn inputs_of(alloc: Global, image: &Image) -> Result<Vec<Signal>, AllocError>
    ensures inputs { IfOk result (λ inputs. inputs.items ≡ inputs_of_image image.now) }
    ensures right { IsImage image.now }
{
    let mut inputs = Vec::new(alloc);
    for signal in &image.signals[..image.inputs as usize] {
        inputs.push(input_of(alloc, signal)?)?;
    }
    Ok(inputs)
}

/// An input of an image, as a signal.
fn input_of(alloc: Global, signal: &ImageSignal) -> Result<Signal, AllocError>
    ensures { IfOk result (λ input. input ≡ input_of signal.now) }
{
    Ok(Signal {
        name: Text::from_bytes(alloc, signal.name.as_bytes())?,
        kind: signal.kind,
        cluster: 0,
        at: Span { line: 0, col: 0 },
    })
}
