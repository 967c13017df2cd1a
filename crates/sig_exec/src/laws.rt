//! What holds of the runs of images.

ghost use Rattle.std.specs.Prelude.{◌≡◌, ◌≤◌};
ghost use Rattle.sig_exec.specs.Prelude.{ℕ, ℤ, List, AllByRecursion, IsImage, IsImageRun, IsSoundImage, ImageEnd, ImageView};
ghost use Rattle.sig_exec.specs.Running.{AreFlowsOf, HaveKinds};

/// A law: over given flows and up to a limit an image has at most one run, of at most as many instants; and an image that is
/// sound has one.
pub fn images_have_one_run()
    ensures one { (image : ImageView) (flows : List (List ℤ)) (limit : ℕ) (text other : List ℕ) (end last : ImageEnd)
        → IsImageRun image flows limit text end → IsImageRun image flows limit other last → (text ≡ other) × (end ≡ last) }
    ensures some { (image : ImageView) (flows : List (List ℤ)) (limit : ℕ) → IsImage image → IsSoundImage image → AreFlowsOf image flows
        → (text : List ℕ) × (end : ImageEnd) × IsImageRun image flows limit text end }
    ensures within { (image : ImageView) (flows : List (List ℤ)) (limit : ℕ) (text : List ℕ) (end : ImageEnd)
        → IsImageRun image flows limit text end → end.instants ≤ limit }
{}

/// A law: in each committed instant of a run of an image that is right, over flows that fit, each signal is absent or has a
/// value of its kind.
pub fn committed_values_have_kinds()
    ensures { (image : ImageView) (flows : List (List ℤ)) (limit : ℕ) (text : List ℕ) (end : ImageEnd) → IsImage image → AreFlowsOf image flows
        → (run : IsImageRun image flows limit text end) → AllByRecursion (HaveKinds image) run.committed }
{}
