//! The command `exec`: from the names of two files to a status.

ghost use Rattle.std.specs.Prelude.{◌≡◌, ◌⊎◌, IfOk, IfSome, IsErrOf, IsTrue, OnOk};
ghost use Rattle.sig_exec.specs.Running.{AreFlowsOf, TookRun, TookSome};
ghost use Rattle.sig_outcome.specs.Tasks.{Performs, SaysLine};
ghost use Rattle.sig_loaded.specs.Runs.{LacksMemory};
ghost use Rattle.sig_text.specs.Counts.{Rose};
ghost use Rattle.sig_text.specs.Files.{name_where_there};
ghost use Rattle.sig_image_command.specs.Execs.{WritesExec, executing};

use crate::image_file::image_in;
use crate::load::{LoadedImage, load};
use crate::report::{end_status, say_end};
use sig_exec::{ExecAnswer, Verified, exec};
use sig_file::ImageEnd;
use sig_kernel::Inputs;
use sig_outcome::{refuse, say_fault, say_no_memory};
use sig_text::{Files, Sink, WriteFault};
use sig_words::Settings;
use std::alloc::Global;

/// Runs the image that a file holds over the flows that another file holds, on this thread and without
/// compiling, up to the limit of instants of the settings. The image is verified first.
pub fn exec_command<F: Files, S: Sink, E: Sink>(
    alloc: Global,
    image: &str,
    flows: &str,
    settings: Settings,
    files: &mut F,
    out: &mut S,
    err: &mut E,
) -> u8
    ensures performs { Performs (executing image.now flows.now settings)
        (F.contents files.old) (F.at files.old) (F.at files.new)
        (F.misses files.old) (F.misses files.new) (F.faults files.old) (F.faults files.new)
        S.took out.old out.new (S.faults out.old) (S.faults out.new) (S.clean out.new)
        (SaysLine E.took (E.faults err.old) (E.faults err.new) err.old err.new) result }

    // Where nodes do not suffice, the image file is the one that was begun last.
    ensures last { IfSome (F.contents files.old) (λ held. result ≡ 8 → F.at files.new ≡ name_where_there held image.now) }
{
    match load(alloc, files, image, flows, settings) {
        Ok(loaded) => exec_loaded(alloc, &loaded, settings.instants, out, err),
        Err(refusal) => refuse(&refusal, err),
    }
}

/// Runs what was loaded, and says on `err` how it ended.
fn exec_loaded<S: Sink, E: Sink>(
    alloc: Global,
    loaded: &LoadedImage,
    limit: u32,
    out: &mut S,
    err: &mut E,
) -> u8
    requires fit { AreFlowsOf loaded.now.image loaded.now.inputs }
    ensures { WritesExec loaded.now.image loaded.now.inputs limit
        S.took out.old out.new (S.faults out.old) (S.faults out.new) (S.clean out.new)
        (SaysLine E.took (E.faults err.old) (E.faults err.new) err.old err.new) result
        ⊎ LacksMemory out.old out.new (SaysLine E.took (E.faults err.old) (E.faults err.new) err.old err.new) result }
{
    let image = image_in(&loaded.image);
    match exec_out(alloc, &loaded.image, &loaded.inputs, limit, out) {
        Ok(end) => {
            say_end(err, image, end);
            end_status(end.cause)
        }
        Err(ExecAnswer::WriteFault) => {
            say_fault(err, WriteFault);
            6
        }
        Err(ExecAnswer::OutOfMemory) => {
            say_no_memory(err);
            7
        }
    }
}

/// Runs an image over flows to the end, and hands the text on.
fn exec_out<S: Sink>(
    alloc: Global,
    image: &Verified,
    inputs: &Inputs,
    limit: u32,
    out: &mut S,
) -> Result<ImageEnd, ExecAnswer>
    requires fit { AreFlowsOf image.now inputs.now }
    ensures whole { IfOk result (TookRun image.now inputs.now limit S.took out.old out.new) }
    ensures clean { OnOk result (IsTrue (S.clean out.new)) }
    ensures prefix { IsErrOf result ExecAnswer.WriteFault → TookSome image.now inputs.now limit S.took out.old out.new }
    ensures failed { IsErrOf result ExecAnswer.WriteFault → Rose (S.faults out.old) (S.faults out.new) }
    ensures memory { IsErrOf result ExecAnswer.OutOfMemory → out.new ≡ out.old }
{
    let end = exec(alloc, image, inputs, limit, out)?;
    match out.flush() {
        Ok(()) => Ok(end),
        Err(WriteFault) => Err(ExecAnswer::WriteFault),
    }
}
