//! Laws of pacing. The function of a law does nothing when it runs.

ghost use Rattle.std.specs.Prelude.{◌<◌, ◌^◌, ◌≡◌, ◌⊎◌, ◌↔◌, ◌+◌, ◌++◌};
ghost use Rattle.sig_pace.specs.Prelude.{ℕ, ℤ, pos, true, List, Contains, length, map, slice_get, Some, is_some, AreFlowsFor, Boolean, Bounded, Fits, Instant, Range, Trace, seen_at, HasRoot, IsMissingRoot, IsSignal, IsTraceIn, IsValid, Kernel, output_text};
ghost use Rattle.sig_pace.specs.MaximalClocks.{AreMaximalClocks};
ghost use Rattle.sig_pace.specs.Paced.{GetsPaces, IsPaced, pace_name, paced_kernel, place_of};
ghost use Rattle.sig_pace.specs.Renumbering.{moved};
ghost use Rattle.sig_pace.specs.Refusals.{HasTooManySignals, IsNameTaken};
ghost use Rattle.sig_pace.specs.Restriction.{FitPaces, HasPaces, HasTracesOf, without_paces};

use sig_kernel::flows_hold_values;

/// A law: with paces, each signal of a valid kernel is what it was, at its new place: its name, its kind,
/// its cluster and where it is declared. The paces are boolean inputs of cluster 0 behind the old ones.
pub fn signals_are_what_they_were()
    ensures old { (kernel : Kernel) (least : List ℕ) → IsValid kernel → (signal : ℕ) → IsSignal kernel signal
        → slice_get (paced_kernel kernel least).signals (moved kernel.inputs (length least) signal) ≡ slice_get kernel.signals signal }
    ensures paces { (kernel : Kernel) (least : List ℕ) → IsValid kernel → (j m : ℕ) → slice_get least j ≡ Some m
        → slice_get (paced_kernel kernel least).signals (kernel.inputs + j)
        ≡ Some (record { name = pace_name (1 + j); kind = Boolean; cluster = 0; at = place_of kernel m }) }
{}

/// A law: the traces of a kernel that has paces for some of its signals are, without the paces, those of
/// the kernel without them; and to each trace of that kernel there is one whose paces tell at each
/// instant which of these signals are present.
pub fn paced_kernels_have_the_old_traces()
    ensures { (kernel : Kernel) (least : List ℕ) → IsValid kernel → ((m : ℕ) → Contains least m → IsSignal kernel m)
        → HasTracesOf kernel least }
{}

/// A law: at each instant of a trace of a kernel with paces, the signal of a pace is present exactly where
/// the pace is true.
pub fn clocks_are_present_where_their_paces_are_true()
    ensures { (kernel : Kernel) (least : List ℕ) (range : Range) (wide : Trace) → IsTraceIn range (paced_kernel kernel least) wide
        → (number j m : ℕ) (instant : Instant) → slice_get wide number ≡ Some instant → slice_get least j ≡ Some m → IsSignal kernel m
        → (seen_at instant (kernel.inputs + j) ≡ Some (pos 1)) ↔ (is_some (seen_at (without_paces kernel least instant) m) ≡ true) }
{}

/// A law: a trace of a kernel with paces fits flows where it fits, without the paces, those of the old
/// inputs, and its paces those that are given for them.
pub fn traces_fit_the_flows_of_paces()
    ensures { (kernel : Kernel) (least : List ℕ) → IsValid kernel → (flows paces : List (List ℤ)) → length flows ≡ kernel.inputs
        → (wide : Trace) → Fits (flows ++ paces) wide ↔ (Fits flows (map (without_paces kernel least) wide) × FitPaces kernel paces wide) }
{}

/// A law: each trace of a kernel that fits flows is one that paces with some flows make.
pub fn traces_have_paces()
    ensures { (kernel : Kernel) (least : List ℕ) → IsValid kernel → ((m : ℕ) → Contains least m → IsSignal kernel m)
        → (flows : List (List ℤ)) → AreFlowsFor kernel flows → (trace : Trace) → IsTraceIn Bounded kernel trace → Fits flows trace
        → HasPaces kernel least flows trace }
{
    paced_kernels_have_the_old_traces();
    flows_hold_values();
}

/// A law: a trace of a kernel with paces has the text that it has without them.
pub fn paces_write_nothing()
    ensures { (kernel : Kernel) (least : List ℕ) → IsValid kernel → (wide : Trace)
        → output_text (paced_kernel kernel least) wide ≡ output_text kernel (map (without_paces kernel least) wide) }
{}

/// A law: a valid kernel that gets paces is valid with them.
pub fn paced_kernels_are_valid()
    ensures { (kernel paced : Kernel) (least : List ℕ) → IsValid kernel → GetsPaces kernel paced least
        → length kernel.equations < 2 ^ 31 → IsValid paced }
{}

/// A law: a kernel that gets paces has a root with them, so it is not refused for want of one.
pub fn paced_kernels_have_a_root()
    ensures root { (kernel paced : Kernel) (least : List ℕ) → IsValid kernel → GetsPaces kernel paced least → HasRoot paced }
    ensures never_missing { (kernel paced : Kernel) (least : List ℕ) (x y : ℕ) → IsValid kernel → GetsPaces kernel paced least
        → IsMissingRoot paced x y → ⊥ }
{}

/// A law: a kernel has one list of the least signals of its maximal clocks, and is paced in one way or
/// refused for one reason, with the same signal.
pub fn a_kernel_has_one_pacing()
    ensures clocks { (kernel : Kernel) (a b : List ℕ) → AreMaximalClocks kernel a → AreMaximalClocks kernel b → a ≡ b }
    ensures paced { (kernel a b : Kernel) → IsPaced kernel a → IsPaced kernel b → a ≡ b }
    ensures taken { (kernel paced : Kernel) (signal : ℕ) → IsPaced kernel paced → IsNameTaken kernel signal → ⊥ }
    ensures many { (kernel paced : Kernel) → IsPaced kernel paced → HasTooManySignals kernel → ⊥ }
    ensures same_taken { (kernel : Kernel) (x y : ℕ) → IsNameTaken kernel x → IsNameTaken kernel y → x ≡ y }
    ensures one_by_one { (kernel : Kernel) (x : ℕ) → IsNameTaken kernel x → HasTooManySignals kernel → ⊥ }
{}

/// A law: each kernel, valid or not, is paced, or it is refused since a name is taken or since there
/// would be too many signals.
pub fn kernels_are_paced_or_refused()
    ensures { (kernel : Kernel) → ((paced : Kernel) × IsPaced kernel paced)
        ⊎ (((signal : ℕ) × IsNameTaken kernel signal) ⊎ HasTooManySignals kernel) }
{}
