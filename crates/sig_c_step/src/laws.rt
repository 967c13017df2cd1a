//! What the step of an image does, in small C. The function of a law does nothing when it runs.

ghost use Rattle.std.specs.Prelude.{◌≡◌, ℕ, ℤ, List, Some, slice_get};
ghost use Rattle.sig_file.specs.Guarded.{IsSoundImage};
ghost use Rattle.sig_file.specs.ImageRuns.{IsImageRun};
ghost use Rattle.sig_file.specs.Images.{ImageView, IsImage};
ghost use Rattle.sig_file.specs.declared.run.ImageEnd.{ImageEnd};
ghost use Rattle.sig_exec.specs.Running.{AreFlowsOf};
ghost use Rattle.sig_c.specs.File.{AreHelpersLaid, ArePrintable};
ghost use Rattle.sig_c.specs.Layout.{AreLaid};
ghost use Rattle.sig_c.specs.Names.{HasNames, IsUnit};
ghost use Rattle.sig_c.specs.SmallC.{EndRow};
ghost use Rattle.sig_c_step.specs.Correct.{ComesToInC};
ghost use Rattle.sig_c_step.specs.Headers.{IsDone, IsHeaderOf};
ghost use Rattle.sig_c_step.specs.Names.{AreNames, Names};
ghost use Rattle.sig_c_step.specs.Translation.{ends_of, header_of, helpers_of, step_in, unit_of, variables_of};

/// A law: calls of the step of a right and sound image, with whatever names, do what the run of the image does, over flows
/// that fit and for whatever limit. Nothing that they do is undefined in C.
pub fn steps_run_as_images()
    ensures { (image : ImageView) (names : Names) → IsImage image → IsSoundImage image → AreNames image names → (flows : List (List ℤ)) → AreFlowsOf image flows
        → (limit : ℕ) (text : List ℕ) (end : ImageEnd) → IsImageRun image flows limit text end
        → ComesToInC (header_of image names) (unit_of image names) image flows limit text end }
{}

/// A law: the header of a right image has the functions of its inputs and outputs and the fields of its memories in order, with the
/// names that are given and the types of their kinds; row 0 of the table of ends says that a step is done.
pub fn headers_are_of_images()
    ensures header { (image : ImageView) (names : Names) → IsImage image → AreNames image names → IsHeaderOf image names (header_of image names) }
    ensures done { (image : ImageView) (names : Names) → (row : EndRow) × (slice_get (unit_of image names).ends 0 ≡ Some row) × IsDone row }
{}

/// A law: if C tells the names apart and none is one that it or the header has, the file of a right image may be written.
pub fn steps_may_be_written()
    ensures { (image : ImageView) (names : Names) → IsImage image → AreNames image names → HasNames (header_of image names) (variables_of image names)
        → IsUnit (header_of image names) (unit_of image names) }
{}

/// A law: the statements of the step of a right image are laid out so that their bytes make their tokens, and so are those of its
/// helpers and the names of its ends.
pub fn steps_are_laid_out()
    ensures { (image : ImageView) (names : Names) → IsImage image → AreLaid (step_in image names) × AreHelpersLaid (helpers_of image) × ArePrintable (ends_of image) }
{}
