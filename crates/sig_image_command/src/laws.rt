//! What is so of every build, and of every run of an image.

ghost use Rattle.std.specs.Prelude.{◌≡◌, ◌≤◌, ◌⊎◌, ℕ, false, List, Some, length};
ghost use Rattle.sig_base.specs.declared.limits.TheConstants.{PROGRAM_BYTES};
ghost use Rattle.sig_text.specs.Files.{Contents};
ghost use Rattle.sig_kernel.specs.declared.kernel.Kernel.{Kernel};
ghost use Rattle.sig_kernel.specs.Validity.{IsValid};
ghost use Rattle.sig_plan.specs.Acceptance.{IsAcceptedKernel};
ghost use Rattle.sig_words.specs.declared.command.Settings.{Settings};
ghost use Rattle.sig_file.specs.Bytes.{image_bytes};
ghost use Rattle.sig_file.specs.Images.{ImageView};
ghost use Rattle.sig_file.specs.declared.limits.TheConstants.{IMAGE_BYTES};
ghost use Rattle.sig_outcome.specs.Outcomes.{Holds, Outcome, done};
ghost use Rattle.sig_outcome.specs.Tasks.{IsEnded};
ghost use Rattle.sig_program.specs.Acceptance.{IsAcceptedAs};
ghost use Rattle.sig_image_command.specs.Builds.{AreFewBytes, BuildComesTo, IsKernelImage};
ghost use Rattle.sig_image_command.specs.Complete.{CanBuild, CanExec};
ghost use Rattle.sig_image_command.specs.Execs.{ExecComesTo, ExecutesTo};
ghost use Rattle.sig_image_command.specs.ImageFiles.{AreBytes, IsSoundFile, RefusesImage};

use sig_file::images_of_plans_are_right;
use sig_front::kernels_of_texts;
use sig_program::programs_have_a_verdict;
use sig_shipped_laws::images_of_plans_are_sound;

/// A law: an accepted kernel has one image, whichever of its plans it is made of.
pub fn images_of_kernels_are_one()
    ensures some { (kernel : Kernel) → IsValid kernel → IsAcceptedKernel kernel → (image : ImageView) × IsKernelImage kernel image }
    ensures one { (kernel : Kernel) (a b : ImageView) → IsKernelImage kernel a → IsKernelImage kernel b → a ≡ b }
{}

/// A law: the bytes of the image of an accepted program, if they are few enough, are those of a sound image: so the
/// file of a build is not refused as damaged.
pub fn images_of_kernels_are_right()
    ensures { (bytes : List ℕ) (kernel : Kernel) (image : ImageView) → length bytes ≤ PROGRAM_BYTES → IsAcceptedAs false bytes kernel
        → IsKernelImage kernel image → AreFewBytes (image_bytes image) → IsSoundFile (image_bytes image) image }
{
    kernels_of_texts();
    images_of_plans_are_right();
    images_of_plans_are_sound();
}

/// A law: a build over told contents comes to exactly one outcome, whatever its file holds and whether it is
/// there; and this is so of an accepted program.
pub fn builds_have_one_outcome()
    ensures every { (held : Contents) (program : List ℕ) → (o : Outcome) × BuildComesTo held program o }
    ensures some { (held : Contents) (program : List ℕ) (kernel : Kernel)
        → Holds (held program) PROGRAM_BYTES (λ bytes. IsAcceptedAs false bytes kernel)
        → (o : Outcome) × BuildComesTo held program o }
    ensures one { (held : Contents) (program : List ℕ) (o other : Outcome)
        → BuildComesTo held program o → BuildComesTo held program other → o ≡ other }
{
    programs_have_a_verdict();
}

/// A law: an accepted program whose image has few enough bytes comes to these bytes with status 0, and to
/// nothing else.
pub fn good_builds_are_done()
    ensures only { (held : Contents) (program : List ℕ) → (can : CanBuild held program) → (o : Outcome) → BuildComesTo held program o
        → o ≡ done (image_bytes can.few.image) program }
    ensures some { (held : Contents) (program : List ℕ) → (can : CanBuild held program)
        → BuildComesTo held program (done (image_bytes can.few.image) program) }
{}

/// A law: the run of an image file over told contents comes to exactly one outcome, whatever bytes its files
/// hold and whether they are there; and this is so of a sound image.
pub fn execs_have_one_outcome()
    ensures every { (held : Contents) (file flows : List ℕ) (settings : Settings)
        → ((bytes : List ℕ) → held file ≡ Some bytes → AreBytes bytes)
        → (o : Outcome) × ExecComesTo held file flows settings o }
    ensures some { (held : Contents) (file flows : List ℕ) (settings : Settings) (image : ImageView)
        → Holds (held file) IMAGE_BYTES (λ bytes. IsSoundFile bytes image)
        → (o : Outcome) × ExecComesTo held file flows settings o }
    ensures one { (held : Contents) (file flows : List ℕ) (settings : Settings) (o other : Outcome)
        → ExecComesTo held file flows settings o → ExecComesTo held file flows settings other → o ≡ other }
{}

/// A law: a sound image that can be run over flows comes to the end of its run: that, and nothing else, is
/// what it comes to, with the text of the run, its cause, and status 0 or 3.
pub fn good_execs_end()
    ensures only { (held : Contents) (file flows : List ℕ) (settings : Settings)
        → (can : CanExec held file flows) → (o : Outcome) → ExecComesTo held file flows settings o
        → ExecutesTo can.image can.values settings.instants flows o }
    ensures status { (held : Contents) (file flows : List ℕ) (settings : Settings)
        → CanExec held file flows → (o : Outcome) → ExecComesTo held file flows settings o
        → IsEnded o.status }
    ensures some { (held : Contents) (file flows : List ℕ) (settings : Settings)
        → CanExec held file flows → (o : Outcome) × ExecComesTo held file flows settings o }
{}

/// A law: bytes of a file are those of a sound image, or they are refused with a line, which names the first byte of the
/// first broken field, or the first operation that is not sound; and it is one image, or one line, and not both.
pub fn image_files_have_a_verdict()
    ensures some { (name bytes : List ℕ) → AreBytes bytes
        → ((image : ImageView) × IsSoundFile bytes image) ⊎ ((line : List ℕ) × RefusesImage name bytes line) }
    ensures image { (bytes : List ℕ) (image other : ImageView) → IsSoundFile bytes image → IsSoundFile bytes other → image ≡ other }
    ensures line { (name bytes line other : List ℕ) → RefusesImage name bytes line → RefusesImage name bytes other → line ≡ other }
    ensures apart { (name bytes : List ℕ) (image : ImageView) (line : List ℕ) → IsSoundFile bytes image → RefusesImage name bytes line → ⊥ }
{}
