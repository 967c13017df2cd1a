//! What the text of the step of an image is. The function of a law does nothing when it runs.

ghost use Rattle.std.specs.Prelude.{List};
ghost use Rattle.sig_file.specs.Images.{ImageView, IsImage};
ghost use Rattle.sig_c.specs.Names.{HasNames};
ghost use Rattle.sig_c.specs.SmallC.{Name};
ghost use Rattle.sig_c.specs.Texts.{IsUnitText};
ghost use Rattle.sig_c_step.specs.Names.{AreNames, Names};
ghost use Rattle.sig_c_step.specs.Translation.{header_of, unit_of, variables_of};
ghost use Rattle.sig_c_write.specs.Text.{AreNotes, Notes, text_of};

/// A law: where the names are told apart in C and free, and the notes may be comments, the text of a right image is that of its
/// step, and of no other one.
pub fn texts_are_units()
    ensures { (image : ImageView) (names : Names) (include : Name) (notes : Notes) → IsImage image → AreNames image names
        → HasNames (header_of image names) (variables_of image names) → AreNotes include notes
        → IsUnitText include (header_of image names) (text_of image names include notes) (unit_of image names) }
{}
