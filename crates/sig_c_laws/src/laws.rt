//! What the C of a program gives. The function of a law does nothing when it runs.

ghost use Rattle.std.specs.Prelude.{◌≤◌, ℕ, ℤ, false, List, length, Option};
ghost use Rattle.sig_base.specs.Traces.{Trace};
ghost use Rattle.sig_base.specs.declared.limits.TheConstants.{PROGRAM_BYTES};
ghost use Rattle.sig_base.specs.declared.place.Place.{Place};
ghost use Rattle.sig_kernel.specs.OutputText.{output_text};
ghost use Rattle.sig_kernel.specs.Validity.{AreFlowsFor};
ghost use Rattle.sig_kernel.specs.declared.kernel.Kernel.{Kernel};
ghost use Rattle.sig_plan.specs.declared.ended.Ended.{Ended};
ghost use Rattle.sig_deciding_laws.specs.KernelRuns.{IsKernelEnd};
ghost use Rattle.sig_file.specs.Bytes.{image_bytes};
ghost use Rattle.sig_file.specs.Images.{ImageView};
ghost use Rattle.sig_shipped_laws.specs.Ends.{end_in};
ghost use Rattle.sig_program.specs.Acceptance.{IsAcceptedAs};
ghost use Rattle.sig_image_command.specs.Builds.{AreFewBytes, IsKernelImage};
ghost use Rattle.sig_c.specs.Names.{HasNames};
ghost use Rattle.sig_c.specs.SmallC.{Name, TranslationUnit};
ghost use Rattle.sig_c.specs.Texts.{IsUnitText};
ghost use Rattle.sig_c_step.specs.Correct.{ComesToInC};
ghost use Rattle.sig_c_step.specs.Names.{AreNames, Names};
ghost use Rattle.sig_c_step.specs.Translation.{header_of, variables_of};
ghost use Rattle.sig_c_write.specs.Text.{AreNotes, Notes, text_of};

use sig_c::texts_have_one_unit;
use sig_c_step::steps_run_as_images;
use sig_c_write::texts_are_units;
use sig_image_command::{images_of_kernels_are_right, images_run_as_their_kernels};

/// A law: let a program be accepted, and let the text of small C be made of its image, with names that C tells apart. Read in any
/// way, calls of its step, where the functions of the inputs give flows that fit, do nothing that C leaves undefined; they give the
/// outputs of the program's one trace, answer 0 at each of its instants, and then the number of the first cause of its end.
pub fn c_gives_the_trace_of_its_program()
    ensures { (bytes : List ℕ) (kernel : Kernel) (image : ImageView) → length bytes ≤ PROGRAM_BYTES → IsAcceptedAs false bytes kernel → IsKernelImage kernel image
        → AreFewBytes (image_bytes image) → (names : Names) (include : Name) (notes : Notes) → AreNames image names
        → HasNames (header_of image names) (variables_of image names) → AreNotes include notes
        → (unit : TranslationUnit) → IsUnitText include (header_of image names) (text_of image names include notes) unit
        → (flows : List (List ℤ)) → AreFlowsFor kernel flows → (limit : ℕ) (trace : Trace) (place : Option Place) (ended : Ended)
        → IsKernelEnd kernel flows limit trace place ended
        → ComesToInC (header_of image names) unit image flows limit (output_text kernel trace) (end_in kernel ended) }
{
    texts_have_one_unit();
    steps_run_as_images();
    texts_are_units();
    images_of_kernels_are_right();
    images_run_as_their_kernels();
}
