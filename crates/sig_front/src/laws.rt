//! Laws of texts.

ghost use Rattle.std.specs.Prelude.{◌≡◌, ◌⊎◌, ◌<◌, ◌≤◌, ◌^◌};
ghost use Rattle.sig_front.specs.Prelude.{ℕ, ℤ, List, bytes_eq, length, map, IsDistinct, AllByRecursion, IsLongest, IsPrefixOf, Trace, reduce, PROGRAM_BYTES, IsSignalName, IsText, IsWithin, ProcessModel, FlatBody, IsKernelTrace, IsValid, Kernel, AtPlacesOfKernel, restricted};
ghost use Rattle.sig_front.specs.Flats.{IsFlatText, IsNoFlatText};
ghost use Rattle.sig_front.specs.Kernels.{HasTracesOf, IsKernelText, IsNoKernelText, IsProgramTrace};
ghost use Rattle.sig_front.specs.Texts.{IsNoText};
ghost use Rattle.sig_front.specs.declared.answer.FrontAnswer.{FrontAnswer};

use sig_call::{
    flat_bodies_are_well_made, names_of_flat_bodies, places_of_flat_bodies, signals_have_names,
    size_of_flat_bodies, trees_of_texts,
};
use sig_flat::{
    kernel_traces_are_process_traces, kernels_are_valid, kernels_have_few_equations,
    kernels_keep_places, kernels_name_signals, longest_traces_are_longest_process_traces,
    restricted_traces_keep_silence,
};
use sig_kernel::beginnings_are_traces;

/// A law: a text is that of one program or has one refusal, at most, and not both.
pub fn one_text()
    ensures tree { (text : List ℕ) (a b : List ProcessModel) → IsText text a → IsText text b → a ≡ b }
    ensures refusal { (text : List ℕ) (a b : FrontAnswer) → IsNoText text a → IsNoText text b → a ≡ b }
    ensures apart { (text : List ℕ) (tree : List ProcessModel) (answer : FrontAnswer) → IsText text tree → IsNoText text answer → ⊥ }
{}

/// A law: a text has one flat body that is kept or one refusal, at most, and not both.
pub fn one_flat_text()
    ensures flat { (text : List ℕ) (a b : FlatBody) → IsFlatText text a → IsFlatText text b → a ≡ b }
    ensures refusal { (text : List ℕ) (a b : FrontAnswer) → IsNoFlatText text a → IsNoFlatText text b → a ≡ b }
    ensures apart { (text : List ℕ) (flat : FlatBody) (answer : FrontAnswer) → IsFlatText text flat → IsNoFlatText text answer → ⊥ }
{}

/// A law: a text has one kernel that is kept or one refusal, at most, and not both.
pub fn one_kernel_text()
    ensures kernel { (text : List ℕ) (a b : Kernel) → IsKernelText text a → IsKernelText text b → a ≡ b }
    ensures refusal { (text : List ℕ) (a b : FrontAnswer) → IsNoKernelText text a → IsNoKernelText text b → a ≡ b }
    ensures apart { (text : List ℕ) (kernel : Kernel) (answer : FrontAnswer) → IsKernelText text kernel → IsNoKernelText text answer → ⊥ }
{}

/// A law: every text is that of a program or has a refusal, and so with flat bodies that are kept and with
/// kernels that are kept. The signals of a flat body that is kept have names that differ.
pub fn texts_have_a_verdict()
    ensures tree { (text : List ℕ) → ((tree : List ProcessModel) × IsText text tree) ⊎ ((answer : FrontAnswer) × IsNoText text answer) }
    ensures flat { (text : List ℕ) → ((flat : FlatBody) × IsFlatText text flat) ⊎ ((answer : FrontAnswer) × IsNoFlatText text answer) }
    ensures kernel { (text : List ℕ) → ((kernel : Kernel) × IsKernelText text kernel) ⊎ ((answer : FrontAnswer) × IsNoKernelText text answer) }
    ensures names { (text : List ℕ) (flat : FlatBody) → IsFlatText text flat → IsDistinct bytes_eq (map (λ signal. signal.name) flat.signals) }
{
    trees_of_texts();
    names_of_flat_bodies();
}

/// A law: the kernel of a text has the traces of the text's program, and the places of its signals and
/// equations have lines and columns that are at most one more than the bytes of the text. Where the text
/// is not too long, the kernel is valid, and its signals have names of 1 to 1,048,576 bytes of printable
/// ASCII without blanks.
pub fn kernels_of_texts()
    ensures traces { (text : List ℕ) (kernel : Kernel) → IsKernelText text kernel → HasTracesOf text kernel }
    ensures valid { (text : List ℕ) (kernel : Kernel) → length text ≤ PROGRAM_BYTES → IsKernelText text kernel → IsValid kernel }
    ensures small { (text : List ℕ) (kernel : Kernel) → length text ≤ PROGRAM_BYTES → IsKernelText text kernel
        → length kernel.equations < 2 ^ 30 }
    ensures names { (text : List ℕ) (kernel : Kernel) → length text ≤ PROGRAM_BYTES → IsKernelText text kernel
        → AllByRecursion (λ signal. IsSignalName signal.name) kernel.signals }
    ensures places { (text : List ℕ) (kernel : Kernel) → IsKernelText text kernel → AtPlacesOfKernel (IsWithin (length text)) kernel }
{
    trees_of_texts();
    size_of_flat_bodies();
    names_of_flat_bodies();
    signals_have_names();
    places_of_flat_bodies();
    flat_bodies_are_well_made();
    kernels_are_valid();
    kernels_have_few_equations();
    kernels_name_signals();
    kernels_keep_places();
    kernel_traces_are_process_traces();
}

/// A law: the longest trace of the kernel of a text is, without the compiler's signals, the longest trace of
/// the program; what begins a trace of the program is one; and the compiler's signals are absent at silent instants.
pub fn traces_of_programs()
    ensures longest { (text : List ℕ) (kernel : Kernel) → IsKernelText text kernel → (flows : List (List ℤ)) (limit : ℕ) (trace : Trace)
        → length flows ≤ kernel.declared → IsLongest (IsKernelTrace kernel) flows limit trace
        → IsLongest (IsProgramTrace text) flows limit (restricted kernel.declared trace) }
    ensures front { (text : List ℕ) (front trace : Trace) → IsPrefixOf front trace → IsProgramTrace text trace → IsProgramTrace text front }
    ensures silence { (text : List ℕ) (kernel : Kernel) → IsKernelText text kernel → (trace : Trace) → IsKernelTrace kernel trace
        → reduce (restricted kernel.declared trace) ≡ restricted kernel.declared (reduce trace) }
{
    trees_of_texts();
    flat_bodies_are_well_made();
    beginnings_are_traces();
    kernel_traces_are_process_traces();
    longest_traces_are_longest_process_traces();
    restricted_traces_keep_silence();
}
