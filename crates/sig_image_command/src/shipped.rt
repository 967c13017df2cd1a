//! What the image of an accepted kernel does, and what is said of it.

ghost use Rattle.std.specs.Prelude.{◌≡◌, ◌↔◌, ℕ, ℤ, false, List, Option, Some};
ghost use Rattle.sig_base.specs.Traces.{Trace};
ghost use Rattle.sig_base.specs.declared.limits.TheConstants.{PROGRAM_BYTES};
ghost use Rattle.sig_base.specs.declared.place.Place.{Place};
ghost use Rattle.sig_text.specs.Files.{Contents};
ghost use Rattle.sig_kernel.specs.OutputText.{output_text};
ghost use Rattle.sig_kernel.specs.Validity.{AreFlowsFor, inputs_of};
ghost use Rattle.sig_kernel.specs.declared.kernel.Kernel.{Kernel};
ghost use Rattle.sig_plan.specs.declared.ended.Ended.{Ended};
ghost use Rattle.sig_deciding_laws.specs.KernelRuns.{IsKernelEnd};
ghost use Rattle.sig_words.specs.declared.command.Settings.{Settings};
ghost use Rattle.sig_flow.specs.Flows.{AreFlows, IsFirstBadPlace};
ghost use Rattle.sig_flow.specs.declared.answer.FlowAnswer.{FlowAnswer};
ghost use Rattle.sig_file.specs.Bytes.{image_bytes};
ghost use Rattle.sig_file.specs.Guarded.{IsSoundImage};
ghost use Rattle.sig_file.specs.ImageRuns.{IsImageRun};
ghost use Rattle.sig_file.specs.Images.{ImageView};
ghost use Rattle.sig_shipped_laws.specs.Ends.{end_in};
ghost use Rattle.sig_loaded.specs.Ends.{end_line, end_status};
ghost use Rattle.sig_outcome.specs.Outcomes.{Holds, Outcome};
ghost use Rattle.sig_program.specs.Acceptance.{IsAcceptedAs};
ghost use Rattle.sig_loaded.specs.Runs.{HoldFew, RunComesTo, ended};
ghost use Rattle.sig_image_command.specs.Builds.{AreFewBytes, IsKernelImage};
ghost use Rattle.sig_image_command.specs.ExecEnds.{exec_line, exec_status};
ghost use Rattle.sig_image_command.specs.Execs.{ExecComesTo, executed, inputs_of_image};

use crate::laws::{execs_have_one_outcome, images_of_kernels_are_right};

/// A law: the image of an accepted kernel is sound, and its run, over flows that fit the kernel and for whatever limit,
/// has the text of the kernel's longest trace, as many instants, and the named cause of its end, at the place of its
/// equation.
pub fn images_run_as_their_kernels()
    ensures sound { (kernel : Kernel) (image : ImageView) → IsKernelImage kernel image → IsSoundImage image }
    ensures runs { (kernel : Kernel) (image : ImageView) → IsKernelImage kernel image → (flows : List (List ℤ)) → AreFlowsFor kernel flows
        → (limit : ℕ) (trace : Trace) (place : Option Place) (ended : Ended) → IsKernelEnd kernel flows limit trace place ended
        → IsImageRun image flows limit (output_text kernel trace) (end_in kernel ended) }
{}

/// A law: what is said of the run of the image of a kernel is what is said of the run of the kernel. A flow file has the
/// same flows for both, or offends at the same place; the line that names the end is the same, and the status, and so is
/// the whole outcome.
pub fn built_images_end_as_their_programs()
    ensures flows { (kernel : Kernel) (image : ImageView) → IsKernelImage kernel image → (bytes : List ℕ) (flows : List (List ℤ))
        → AreFlows (inputs_of kernel) bytes flows ↔ AreFlows (inputs_of_image image) bytes flows }
    ensures refused { (kernel : Kernel) (image : ImageView) → IsKernelImage kernel image → (bytes : List ℕ) (answer : FlowAnswer)
        → IsFirstBadPlace (inputs_of kernel) bytes answer ↔ IsFirstBadPlace (inputs_of_image image) bytes answer }
    ensures line { (kernel : Kernel) (image : ImageView) → IsKernelImage kernel image → (end : Ended)
        → exec_line image (end_in kernel end) ≡ end_line kernel end }
    ensures status { (kernel : Kernel) (end : Ended) → exec_status (end_in kernel end).cause ≡ end_status end.cause }
    ensures outcome { (kernel : Kernel) (image : ImageView) → IsKernelImage kernel image → (trace : Trace) (end : Ended) (file : List ℕ)
        → executed image (output_text kernel trace) (end_in kernel end) file ≡ ended kernel trace end file }
{}

/// A law: where one file holds an accepted program whose links hold few items, and another one the bytes of its image,
/// `run` without the flag `--pace`, with whatever workers and capacity, and `exec`, up to the same limit of instants, come
/// over a flow file to the same outcome, whatever that file holds and whether it is there. (Each comes to one: `runs_have_one_outcome` of sig_run_command, `execs_have_one_outcome`.)
pub fn built_images_come_to_what_their_programs_do()
    ensures comes { (held : Contents) (program file flows : List ℕ) (settings of_exec : Settings) (kernel : Kernel) (image : ImageView)
        → settings.pace ≡ false → settings.instants ≡ of_exec.instants → Holds (held program) PROGRAM_BYTES (λ bytes. IsAcceptedAs false bytes kernel)
        → IsKernelImage kernel image → AreFewBytes (image_bytes image) → held file ≡ Some (image_bytes image) → HoldFew kernel settings.capacity
        → (o : Outcome) → RunComesTo held program flows settings o → ExecComesTo held file flows of_exec o }
    ensures same { (held : Contents) (program file flows : List ℕ) (settings of_exec : Settings) (kernel : Kernel) (image : ImageView)
        → settings.pace ≡ false → settings.instants ≡ of_exec.instants → Holds (held program) PROGRAM_BYTES (λ bytes. IsAcceptedAs false bytes kernel)
        → IsKernelImage kernel image → AreFewBytes (image_bytes image) → held file ≡ Some (image_bytes image) → HoldFew kernel settings.capacity
        → (o other : Outcome) → RunComesTo held program flows settings o → ExecComesTo held file flows of_exec other → o ≡ other }
{
    images_of_kernels_are_right();
    images_run_as_their_kernels();
    execs_have_one_outcome();
}
