//! What the image of an accepted plan does. The function of a law does nothing when it runs.

ghost use Rattle.sig_shipped_laws.specs.Prelude.{ℕ, ℤ, List, Option, AreFlowsFor, Ended, IsAccepted, IsEnd, IsImageRun, IsSoundImage, Place, PlanView, Trace, image_of, output_text};
ghost use Rattle.sig_shipped_laws.specs.Ends.{end_in};

/// A law: the image of an accepted plan is sound.
pub fn images_of_plans_are_sound()
    ensures { (plan : PlanView) → IsAccepted plan → IsSoundImage (image_of plan) }
{}

/// A law: the run of the image of an accepted plan, over flows that fit its kernel and for whatever limit, has the
/// text of the longest trace, and ends by the named cause, at the place of its equation.
pub fn images_run_as_their_plans()
    ensures { (plan : PlanView) → IsAccepted plan → (flows : List (List ℤ)) → AreFlowsFor plan.kernel flows → (limit : ℕ)
        → (trace : Trace) (place : Option Place) (ended : Ended) → IsEnd plan flows limit trace place ended
        → IsImageRun (image_of plan) flows limit (output_text plan.kernel trace) (end_in plan.kernel ended) }
{}
