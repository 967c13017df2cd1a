//! Laws of kernels and their traces. The function of a law does nothing when it runs.

ghost use Rattle.std.specs.Prelude.{◌≡◌, ◌∷◌, ◌++◌, ◌<◌};
ghost use Rattle.sig_kernel.specs.Prelude.{ℕ, ℤ, List, [], true, length, take, Contains, None, Some, slice_index_or, AllByRecursion, Bounded, Instant, IsInteger, IsLongest, IsValue, IsPrefixOf, Range, Trace, Unbounded, flow_of, is_silent, reduce, seen_at, SigId, Span, Kind, Signal};
ghost use Rattle.sig_kernel.specs.KernelTraces.{IsKernelTrace, IsReaction, IsTraceIn, Memory, remembered};
ghost use Rattle.sig_kernel.specs.OutputText.{output_text};
ghost use Rattle.sig_kernel.specs.Table.{kind_at, operands_of};
ghost use Rattle.sig_kernel.specs.Validity.{AreFlowsFor, IsValid, inputs_of};
ghost use Rattle.sig_kernel.specs.declared.equation.Equation.{Equation};
ghost use Rattle.sig_kernel.specs.declared.equation.Form.TheVariants.{Delay, WhenConst};
ghost use Rattle.sig_kernel.specs.declared.equation.Operand.TheVariants.{Const};
ghost use Rattle.sig_kernel.specs.declared.kernel.Kernel.{Kernel};

use sig_base::functions_give_values_without_bounds;

/// A law: no instants are a trace of every kernel, and what begins a trace of a kernel is one.
pub fn beginnings_are_traces()
    ensures none { (range : Range) (kernel : Kernel) → IsTraceIn range kernel [] }
    ensures front { (range : Range) (kernel : Kernel) (front trace : Trace) → IsPrefixOf front trace
        → IsTraceIn range kernel trace → IsTraceIn range kernel front }
{}

/// A law: silent instants may be taken out of a trace of a kernel, and put into it.
pub fn silent_instants_make_no_difference()
    ensures taken_out { (range : Range) (kernel : Kernel) (trace : Trace)
        → IsTraceIn range kernel trace → IsTraceIn range kernel (reduce trace) }
    ensures put_in { (range : Range) (kernel : Kernel) (front back : Trace) (instant : Instant)
        → is_silent instant ≡ true → length instant ≡ length kernel.signals
        → IsTraceIn range kernel (front ++ back) → IsTraceIn range kernel (front ++ instant ∷ back) }
    ensures text { (kernel : Kernel) (trace : Trace) → output_text kernel (reduce trace) ≡ output_text kernel trace }
{}

/// A law: the flow of a delay is its initial value and then the flow of the signal that it delays,
/// without the last value of that.
pub fn delays_give_the_previous_value()
    ensures { (range : Range) (kernel : Kernel) (trace : Trace) (y x : SigId) (initial : ℤ) (at : Span)
        → Contains kernel.equations (record { form = Delay y x initial; at = at }) → IsTraceIn range kernel trace
        → flow_of y.0 trace ≡ take (length (flow_of x.0 trace)) (initial ∷ flow_of x.0 trace) }
{}

/// A law: a kernel has at most one longest trace for flows and a limit of instants.
pub fn a_kernel_has_one_longest_trace()
    ensures { (kernel : Kernel) (flows : List (List ℤ)) (limit : ℕ) (t u : Trace)
        → IsLongest (IsKernelTrace kernel) flows limit t → IsLongest (IsKernelTrace kernel) flows limit u → t ≡ u }
{}

/// A law: what begins a trace has a text that begins the trace's text.
pub fn texts_grow_with_traces()
    ensures { (kernel : Kernel) (front trace : Trace) → IsPrefixOf front trace
        → IsPrefixOf (output_text kernel front) (output_text kernel trace) }
{}

/// A law: an instant of a kernel, and a trace, whose integers are those of 64 bits and where nothing
/// is divided by 0 is one where every whole number is an integer.
pub fn bounded_traces_are_unbounded()
    ensures instant { (kernel : Kernel) (memory : Memory) (instant : Instant)
        → IsReaction Bounded kernel memory instant → IsReaction Unbounded kernel memory instant }
    ensures trace { (kernel : Kernel) (trace : Trace) → IsTraceIn Bounded kernel trace → IsTraceIn Unbounded kernel trace }
{
    functions_give_values_without_bounds();
}

/// A law: a trace goes on by an instant of the kernel with what the trace leaves to be remembered, and
/// by no other.
pub fn traces_go_on_by_instants()
    ensures on { (range : Range) (kernel : Kernel) (trace : Trace) (instant : Instant) → IsTraceIn range kernel trace
        → IsReaction range kernel (remembered trace) instant → IsTraceIn range kernel (trace ++ instant ∷ []) }
    ensures back { (range : Range) (kernel : Kernel) (trace : Trace) (instant : Instant)
        → IsTraceIn range kernel (trace ++ instant ∷ [])
        → IsTraceIn range kernel trace × IsReaction range kernel (remembered trace) instant }
{}

/// A law: at first a delay remembers its initial value, then the value of the signal that it delays
/// wherever that is present. So a silent instant leaves what is remembered as it is.
pub fn delays_remember_the_last_value()
    ensures first { (signal delayed : ℕ) (initial : ℤ) → remembered [] signal delayed initial ≡ initial }
    ensures present { (past : Trace) (instant : Instant) (signal delayed : ℕ) (initial v : ℤ) → seen_at instant delayed ≡ Some v
        → remembered (past ++ instant ∷ []) signal delayed initial ≡ v }
    ensures absent { (past : Trace) (instant : Instant) (signal delayed : ℕ) (initial : ℤ) → seen_at instant delayed ≡ None
        → remembered (past ++ instant ∷ []) signal delayed initial ≡ remembered past signal delayed initial }
    ensures silent { (past : Trace) (instant : Instant) → is_silent instant ≡ true → remembered (past ++ instant ∷ []) ≡ remembered past }
    ensures reduced { (past : Trace) → remembered (reduce past) ≡ remembered past }
{}

/// A law: the constants of a valid kernel have 64 bits, and the initial value of a delay, and a
/// constant that is sampled, is a value of the kind of the signal that is defined.
pub fn constants_are_values()
    ensures bits { (kernel : Kernel) (equation : Equation) (constant : ℤ) → IsValid kernel → Contains kernel.equations equation
        → Contains (operands_of equation.form) (Const constant) → IsInteger Bounded constant }
    ensures initial { (kernel : Kernel) (y x : SigId) (initial : ℤ) (at : Span) (kind : Kind) → IsValid kernel
        → Contains kernel.equations (record { form = Delay y x initial; at = at }) → kind_at kernel.signals y ≡ Some kind
        → IsValue Bounded kind initial }
    ensures sampled { (kernel : Kernel) (y b : SigId) (constant : ℤ) (at : Span) (kind : Kind) → IsValid kernel
        → Contains kernel.equations (record { form = WhenConst y constant b; at = at }) → kind_at kernel.signals y ≡ Some kind
        → IsValue Bounded kind constant }
{}

/// A law: what a delay of a valid kernel remembers after a trace is a value of the kind of the signal
/// that it defines.
pub fn delays_remember_values()
    ensures { (range : Range) (kernel : Kernel) (trace : Trace) (y x : SigId) (initial : ℤ) (at : Span) (kind : Kind) → IsValid kernel
        → IsTraceIn range kernel trace → Contains kernel.equations (record { form = Delay y x initial; at = at })
        → kind_at kernel.signals y ≡ Some kind → IsValue range kind (remembered trace y.0 x.0 initial) }
{}

/// A law: flows fit a kernel where there is one for each input and holds values of the input's kind,
/// whose integers have 64 bits, and only there.
pub fn flows_hold_values()
    ensures values { (kernel : Kernel) (flows : List (List ℤ)) → AreFlowsFor kernel flows
        → (k : ℕ) (input : Signal) → k < length (inputs_of kernel)
        → AllByRecursion (IsValue Bounded (slice_index_or (inputs_of kernel) k input).kind) (slice_index_or flows k []) }
    ensures fit { (kernel : Kernel) (flows : List (List ℤ)) → length flows ≡ length (inputs_of kernel)
        → ((k : ℕ) (input : Signal) → k < length (inputs_of kernel)
        → AllByRecursion (IsValue Bounded (slice_index_or (inputs_of kernel) k input).kind) (slice_index_or flows k []))
        → AreFlowsFor kernel flows }
{}
