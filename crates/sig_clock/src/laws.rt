//! Laws of the clock calculus. The function of a law does nothing when it runs.

ghost use Rattle.std.specs.Prelude.{◌≡◌, ◌+◌, ◌<◌};
ghost use Rattle.sig_clock.specs.Prelude.{ℕ, Bool, true, false, List, length, slice_get, None, Some, is_some, SigId, Instant, Range, is_silent as is_silent_instant, seen_at, Signal, truth_of, with_truth, IsReaction as IsInstant, Memory, IsValid, Kernel};
ghost use Rattle.sig_clock.specs.Abstractions.{abstraction_of, status_of};
ghost use Rattle.sig_clock.specs.ClockFunctions.{IsClockFunction, KeepsTo};
ghost use Rattle.sig_clock.specs.ClockRefusals.{HasClocks, IsFirstPinned, IsMissingRoot, IsUnsolved};
ghost use Rattle.sig_clock.specs.Clocks.{AreInOrder};
ghost use Rattle.sig_clock.specs.Layers.{EntersBy, HasLayer, IsDead};
ghost use Rattle.sig_clock.specs.Reactions.{IsReaction, Reaction, Speaks, is_present, is_silent, status_at};
ghost use Rattle.sig_clock.specs.SameClocks.{SameClock};

/// A law: an instant of a valid kernel, whichever whole numbers are its integers and whatever its
/// delays remember, is an abstract reaction once the values of integers are left out.
pub fn instants_leave_abstract_reactions()
    ensures { (range : Range) (kernel : Kernel) (memory : Memory) (instant : Instant) → IsValid kernel
        → IsInstant range kernel memory instant → IsReaction kernel (abstraction_of kernel.signals instant) }
{}

/// A law: an instant that is not silent leaves an abstract reaction that is not silent. Each signal is
/// present in it where it is present at the instant, and has the truth of its value.
pub fn abstractions_have_the_statuses_of_values()
    ensures speaks { (range : Range) (kernel : Kernel) (memory : Memory) (instant : Instant) → IsValid kernel
        → IsInstant range kernel memory instant → is_silent_instant instant ≡ false
        → Speaks kernel (abstraction_of kernel.signals instant) }
    ensures silent { (range : Range) (kernel : Kernel) (memory : Memory) (instant : Instant)
        → IsInstant range kernel memory instant
        → is_silent (abstraction_of kernel.signals instant) ≡ is_silent_instant instant }
    ensures statuses { (range : Range) (kernel : Kernel) (memory : Memory) (instant : Instant)
        → IsInstant range kernel memory instant
        → (number : ℕ) (signal : Signal) → slice_get kernel.signals number ≡ Some signal
        → status_at (abstraction_of kernel.signals instant) number ≡ status_of signal.kind (seen_at instant number) }
    ensures presences { (range : Range) (kernel : Kernel) (memory : Memory) (instant : Instant)
        → IsInstant range kernel memory instant
        → (number : ℕ) → is_present (abstraction_of kernel.signals instant) number ≡ is_some (seen_at instant number) }
{}

/// A law: signals of one clock class are present together in every abstract reaction.
pub fn signals_of_one_clock_are_present_together()
    ensures { (kernel : Kernel) (reaction : Reaction) (x y : ℕ) → IsReaction kernel reaction → SameClock kernel x y
        → is_present reaction x ≡ is_present reaction y }
{}

/// A law: the silent reaction is one of every kernel.
pub fn silence_is_a_reaction()
    ensures { (kernel : Kernel) (reaction : Reaction) → is_silent reaction ≡ true
        → length reaction ≡ length kernel.signals → IsReaction kernel reaction }
{}

/// A law: a signal that has entered stays, and it has one layer at most.
pub fn signals_have_one_layer()
    ensures stays { (kernel : Kernel) (signal round : ℕ) → EntersBy kernel round signal → EntersBy kernel (round + 1) signal }
    ensures one { (kernel : Kernel) (signal a b : ℕ) → HasLayer kernel signal a → HasLayer kernel signal b → a ≡ b }
{}

/// A law: in a kernel that has clocks each proposal of truths for the conditions is kept to by some
/// reaction that is not silent, and these have the same signals. So the clock function of a signal is
/// a function of the proposal.
pub fn proposals_determine_presences()
    ensures some { (kernel : Kernel) (conditions : List SigId) → HasClocks kernel → AreInOrder kernel conditions
        → (proposal : List Bool) → (reaction : Reaction) × Speaks kernel reaction × KeepsTo conditions proposal reaction }
    ensures one { (kernel : Kernel) (conditions : List SigId) → HasClocks kernel → AreInOrder kernel conditions
        → (proposal : List Bool) (a b : Reaction) → Speaks kernel a → Speaks kernel b
        → KeepsTo conditions proposal a → KeepsTo conditions proposal b
        → (signal : ℕ) → signal < length kernel.signals → is_present a signal ≡ is_present b signal }
{}

/// A law: in a kernel that has clocks, where a condition is absent from a reaction, its truth makes no
/// difference to a clock function, whatever the truths of the later conditions are. So a walk over a
/// guard by the truths of a reaction's present conditions never asks for one that is absent: below
/// the truths of the earlier ones the guard does not depend on it.
pub fn absent_conditions_make_no_difference()
    ensures { (kernel : Kernel) (conditions : List SigId) → HasClocks kernel → AreInOrder kernel conditions
        → (signal : ℕ) (function : List Bool → Bool) → IsClockFunction kernel conditions signal function
        → (reaction : Reaction) (proposal other : List Bool) (v : ℕ) (condition : SigId)
        → Speaks kernel reaction → KeepsTo conditions proposal reaction
        → slice_get conditions v ≡ Some condition → status_at reaction condition.0 ≡ None
        → ((u : ℕ) → u < v → truth_of other u ≡ truth_of proposal u)
        → function (with_truth other v false) ≡ function (with_truth other v true) }
{}

/// A law: a kernel is refused for one reason at most, with the same signals, and where it is, it has
/// no clocks.
pub fn a_kernel_has_one_refusal()
    ensures dead { (kernel : Kernel) → IsDead kernel → HasClocks kernel → ⊥ }
    ensures no_root { (kernel : Kernel) (x y : ℕ) → IsMissingRoot kernel x y → HasClocks kernel → ⊥ }
    ensures unsolved { (kernel : Kernel) (x : ℕ) → IsUnsolved kernel x → HasClocks kernel → ⊥ }
    ensures pinned { (kernel : Kernel) (b : ℕ) → IsFirstPinned kernel b → HasClocks kernel → ⊥ }
    ensures same_roots { (kernel : Kernel) (x y u v : ℕ) → IsMissingRoot kernel x y → IsMissingRoot kernel u v → (x ≡ u) × (y ≡ v) }
    ensures same_unsolved { (kernel : Kernel) (x y : ℕ) → IsUnsolved kernel x → IsUnsolved kernel y → x ≡ y }
    ensures same_pinned { (kernel : Kernel) (b d : ℕ) → IsFirstPinned kernel b → IsFirstPinned kernel d → b ≡ d }
    ensures one_by_one { (kernel : Kernel) (x y u : ℕ) → IsMissingRoot kernel x y → IsUnsolved kernel u → ⊥ }
{}
