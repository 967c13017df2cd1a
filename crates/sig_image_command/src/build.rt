//! The command `build`: from the name of a program file to a status.

ghost use Rattle.std.specs.Prelude.{◌≡◌, IfErr, IfOk};
ghost use Rattle.sig_file.specs.Bytes.{image_bytes};
ghost use Rattle.sig_file.specs.Images.{IsImage};
ghost use Rattle.sig_file.specs.PlanImages.{image_of};
ghost use Rattle.sig_plan.specs.Plans.{IsAccepted};
ghost use Rattle.sig_program.specs.Acceptance.{HasSignalNames};
ghost use Rattle.sig_outcome.specs.Outcomes.{done};
ghost use Rattle.sig_outcome.specs.Refusals.{IsOfLength};
ghost use Rattle.sig_outcome.specs.Tasks.{Performs, Reaches, SaysLine, Stops};
ghost use Rattle.sig_image_command.specs.Builds.{AreImageBytes, AreManyBytes, building};
ghost use Rattle.sig_image_command.specs.ImageFiles.{TookSoundImage};

use sig_file::{FileAnswer, image, write_image};
use sig_outcome::{Refusal, put_due, refuse};
use sig_plan::Plan;
use sig_program::load_plan;
use sig_text::{Files, Sink};
use std::alloc::Global;

/// Writes the bytes of the image of the program that the file of this name holds.
pub fn build_command<F: Files, S: Sink, E: Sink>(
    alloc: Global,
    program: &str,
    files: &mut F,
    out: &mut S,
    err: &mut E,
) -> u8
    ensures performs { Performs (building program.now)
        (F.contents files.old) (F.at files.old) (F.at files.new)
        (F.misses files.old) (F.misses files.new) (F.faults files.old) (F.faults files.new)
        S.took out.old out.new (S.faults out.old) (S.faults out.new) (S.clean out.new)
        (SaysLine E.took (E.faults err.old) (E.faults err.new) err.old err.new) result }

    // What a build wrote is the bytes of a sound image: reading gives it, and it is run.
    ensures image { result ≡ 0 → TookSoundImage (λ bytes. S.took out.old bytes out.new) }
{
    match built(alloc, files, program) {
        Ok(bytes) => put_due(&bytes, out, err),
        Err(refusal) => refuse(&refusal, err),
    }
}

/// The bytes of the image of the program that the file of this name holds.
fn built<'a, F: Files>(alloc: Global, files: &mut F, name: &'a str) -> Result<Vec<u8>, Refusal<'a>>
    ensures bytes { IfOk result (λ bytes. Reaches (building name.now)
        (F.contents files.old) (F.at files.old) (F.at files.new) (done bytes.items name.now)) }
    ensures image { IfOk result (λ bytes. TookSoundImage (λ are. bytes.items ≡ are)) }
    ensures stops { IfErr result (Stops (building name.now)
        (F.contents files.old) (F.at files.old) (F.at files.new)
        (F.misses files.old) (F.misses files.new) (F.faults files.old) (F.faults files.new)) }
{
    let plan = load_plan(alloc, files, name, false)?;
    bytes_of(alloc, &plan)
}

/// The bytes of the image of a plan, unless they are too many.
fn bytes_of<'a>(alloc: Global, plan: &Plan) -> Result<Vec<u8>, Refusal<'a>>
    requires names { HasSignalNames plan.now.kernel }
    ensures bytes { IfOk result (λ bytes. AreImageBytes plan.now bytes.items) }
    ensures right { IfOk result (λ bytes. IsImage (image_of plan.now)) }
    ensures accepted { IsAccepted plan.now }
    ensures refused { IfErr result (IsOfLength (AreManyBytes (image_bytes (image_of plan.now)))) }
{
    // What holds of every plan is known where its fields are read.
    let _kernel = &plan.kernel;
    let image = match image(alloc, plan) {
        Ok(image) => image,
        Err(FileAnswer::TooLong(_)) => return Err(Refusal::LongImage),
        Err(FileAnswer::OutOfMemory) => return Err(Refusal::OutOfMemory),
    };
    match write_image(alloc, &image) {
        Ok(bytes) => Ok(bytes),
        Err(_) => Err(Refusal::OutOfMemory),
    }
}
