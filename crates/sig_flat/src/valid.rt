//! That the kernels of well-made flat bodies are valid.

ghost use Rattle.std.specs.Prelude.{◌≡◌, ◌<◌, ◌≤◌, ◌+◌, ◌*◌, ◌^◌};
ghost use Rattle.sig_flat.specs.Prelude.{bytes_eq, length, map, take, AllByRecursion, IsDistinct, SIGNALS, IsSignalName, NamesOperators, flat_weights, IsWellMade, IsValid, FlatBody};
ghost use Rattle.sig_flat.specs.KernelOf.{kernel_of};

/// A law: the kernel of a well-made flat body, whose inputs have names that differ, is valid, unless
/// a limit is passed.
pub fn kernels_are_valid()
    ensures { (flat : FlatBody) → IsWellMade flat → IsDistinct bytes_eq (map (λ input. input.name) (take flat.inputs flat.signals))
        → length (kernel_of flat).signals ≤ SIGNALS → length (kernel_of flat).equations < 2 ^ 32 → IsValid (kernel_of flat) }
{}

/// A law: a kernel has at most two equations for each intermediate, beside one for each definition of
/// the flat body and one for each pair of operands that stand beside each other in a clock equation.
pub fn kernels_have_few_equations()
    ensures { (flat : FlatBody)
        → length (kernel_of flat).equations + 2 * length flat.signals ≤ 2 * length (kernel_of flat).signals + flat_weights flat.equations }
{}

/// A law: the signals of a kernel have names of 1 to 1,048,576 bytes of printable ASCII without
/// blanks where those of the flat body have, and the intermediates of its operators.
pub fn kernels_name_signals()
    ensures { (flat : FlatBody) → AllByRecursion (λ signal. IsSignalName signal.name) flat.signals → AllByRecursion NamesOperators flat.equations
        → AllByRecursion (λ signal. IsSignalName signal.name) (kernel_of flat).signals }
{}
