//! The run of an image.

ghost use Rattle.std.specs.Prelude.{◌≡◌, ◌≤◌};
ghost use Rattle.sig_exec.specs.Prelude.{Err, IfOk, IsSoundImage, OnErr, Rose, cleared, guards_of, length, opening};
ghost use Rattle.sig_exec.specs.inner.Instants.{AreOutputs};
ghost use Rattle.sig_exec.specs.inner.Lowerings.{Lowers};
ghost use Rattle.sig_exec.specs.inner.Machines.{IsMachineOf, state_of};
ghost use Rattle.sig_exec.specs.Running.{AreFlowsOf, TookRun, TookSome};
ghost use Rattle.sig_exec.specs.declared.answer.ExecAnswer.{ExecAnswer};

use crate::answer::ExecAnswer;
use crate::images::{image_of, images_are_right};
use crate::lowered::ImageInstructions;
use crate::lowering::lower;
use crate::machine::ImageMachine;
use crate::putting::Outputs;
use sig_file::{Image, ImageCause, ImageEnd};
use sig_kernel::Inputs;
use sig_text::{Sink, WriteFault};
use sig_verify::Verified;
use std::alloc::Global;

/// Runs a verified image over flows, one for each input, up to a limit of instants. The text of each instant is appended to
/// the sink once the instant is whole, so that of a whole run the sink took the text of the run of the image, and the
/// answer is its end. Where a write fails, a prefix of that text was appended. All memory is taken before the first
/// instant.
pub fn exec<S: Sink>(
    alloc: Global,
    image: &Verified,
    inputs: &Inputs,
    limit: u32,
    sink: &mut S,
) -> Result<ImageEnd, ExecAnswer>
    requires fit { AreFlowsOf image.now inputs.now }
    ensures whole { IfOk result (TookRun image.now inputs.now limit S.took sink.old sink.new) }
    ensures prefix { result ≡ Err ExecAnswer.WriteFault → TookSome image.now inputs.now limit S.took sink.old sink.new }
    ensures failed { result ≡ Err ExecAnswer.WriteFault → Rose (S.faults sink.old) (S.faults sink.new) }
    ensures faults_stay { S.faults sink.old ≤ S.faults sink.new }
    ensures memory { result ≡ Err ExecAnswer.OutOfMemory → sink.new ≡ sink.old }
{
    let image = image_of(image);
    let Ok(lowered) = lower(alloc, image) else {
        return Err(ExecAnswer::OutOfMemory);
    };
    let Ok(mut machine) = ImageMachine::new(alloc, &lowered, inputs) else {
        return Err(ExecAnswer::OutOfMemory);
    };
    let Ok(mut outputs) = Outputs::new(alloc, image) else {
        return Err(ExecAnswer::OutOfMemory);
    };
    match run(
        &mut machine,
        image,
        &lowered,
        &mut outputs,
        inputs,
        limit,
        sink,
    ) {
        Ok(end) => Ok(end),
        Err(WriteFault) => Err(ExecAnswer::WriteFault),
    }
}

/// Runs from before the first instant.
fn run<S: Sink>(
    machine: &mut ImageMachine,
    image: &Image,
    lowered: &ImageInstructions,
    outputs: &mut Outputs,
    inputs: &Inputs,
    limit: u32,
    sink: &mut S,
) -> Result<ImageEnd, WriteFault>
    requires sound { IsSoundImage image.now }
    requires inputs { length inputs.now ≡ image.now.inputs }
    requires lowers { Lowers image.now lowered.now }
    requires machine { IsMachineOf image.now lowered.now inputs.now machine.old }
    requires outputs { AreOutputs image.now outputs.old }
    requires instant { machine.old.instant ≡ 0 }
    requires opening { cleared (guards_of image.now) (state_of image.now inputs.now machine.old)
        ≡ cleared (guards_of image.now) (opening (guards_of image.now) inputs.now) }
    ensures whole { IfOk result (TookRun image.now inputs.now limit S.took sink.old sink.new) }
    ensures prefix { OnErr result (TookSome image.now inputs.now limit S.took sink.old sink.new) }
    ensures failed { OnErr result (Rose (S.faults sink.old) (S.faults sink.new)) }
    ensures faults_stay { S.faults sink.old ≤ S.faults sink.new }
{
    images_are_right(image);
    for done in 0..limit {
        machine.begin(done + 1);
        if let Err(cause) = machine.react(image, lowered, inputs) {
            return Ok(ImageEnd {
                instants: done,
                cause,
            });
        }
        outputs.put(machine, image, sink)?;
    }
    Ok(ImageEnd {
        instants: limit,
        cause: ImageCause::Limit,
    })
}
