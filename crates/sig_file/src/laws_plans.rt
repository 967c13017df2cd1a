//! What holds of the image of every accepted plan.

ghost use Rattle.std.specs.Prelude.{◌≤◌};
ghost use Rattle.sig_file.specs.Prelude.{length};
ghost use Rattle.sig_file.specs.Bytes.{image_bytes};
ghost use Rattle.sig_file.specs.Images.{IsImage};
ghost use Rattle.sig_file.specs.PlanImages.{image_of};
ghost use Rattle.sig_file.specs.Spelled.{HasNames, HavePlaces};
ghost use Rattle.sig_file.specs.declared.limits.TheConstants.{IMAGE_BYTES};
ghost use Rattle.sig_plan.specs.Plans.{IsAccepted, PlanView};

/// A law: the image of an accepted plan is right, where the names of its signals have the length and the
/// bytes that an image asks for, its places have 32 bits, and its bytes are few enough.
pub fn images_of_plans_are_right()
    ensures { (plan : PlanView) → IsAccepted plan → HasNames plan.kernel → HavePlaces (image_of plan).ops
        → length (image_bytes (image_of plan)) ≤ IMAGE_BYTES → IsImage (image_of plan) }
{}
