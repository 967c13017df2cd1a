//! What holds of the kernels of flat bodies.

ghost use Rattle.std.specs.Prelude.{Bool, IsTrue, ◌≡◌, ◌↔◌, ◌||◌, ◌+◌, ◌^◌, ◌<◌, ◌≤◌, ◌∷◌};
ghost use Rattle.sig_flat.specs.Prelude.{take, ℤ, pos, true, [], length, AllByRecursion, AllPass, list_any, Bounded, Instant, IsOfKind, IsPrefixOf, Span, seen_at, Integer, SIGNALS, SigId, Meets, Memory, function_of, where_present, operands_of, HasParts, form_within, inputs_of, is_signal, Equation, Default, Delay, Event, Fun, Sync, When, WhenConst, FunOp, Not, Operand, Sig, DefaultOf, Less, Meet, Plus, Sampled, Clock, WhenOf, AppliesToBoth, AppliesToOne, Changes, Combines, Constant, Signal, clock_of, delayed, held, sampled, FlatBody};
ghost use Rattle.sig_tree.specs.Operators.{merged};
ghost use Rattle.sig_flat.specs.Rows.{AreMet, found_at};
ghost use Rattle.sig_flat.specs.Bodies.{EquationSpeaks, NamesItsSignals};
ghost use Rattle.sig_flat.specs.KernelOf.{kernel_of};
ghost use Rattle.sig_flat.specs.Places.{AtPlacesOfKernel, AtTakenOfBody};

/// A law: the signals of the kernel of a flat body begin with those of the flat body, which are the
/// declared ones, and its inputs and outputs are the same.
pub fn kernels_keep_signals()
    ensures signals { (flat : FlatBody) → IsPrefixOf flat.signals (kernel_of flat).signals }
    ensures declared { (flat : FlatBody) → (kernel_of flat).declared ≡ length flat.signals }
    ensures inputs { (flat : FlatBody) → (kernel_of flat).inputs ≡ flat.inputs }
    ensures outputs { (flat : FlatBody) → (kernel_of flat).outputs ≡ flat.outputs }
{}

/// A law: where an operator is one equation, an instant meets the equation exactly where the
/// operator's signal is there what the operator makes of its operands.
pub fn equations_mean_operators()
    ensures one { (memory : Memory) (instant : Instant) (op : FunOp) (x y : SigId) → IsOfKind Bounded Integer (seen_at instant y.0)
        → (Meets Bounded memory instant (Fun y op (Sig x ∷ [])) ↔ AppliesToOne (function_of op) (Signal (seen_at instant x.0)) (seen_at instant y.0)) }
    ensures both { (memory : Memory) (instant : Instant) (op : FunOp) (u v : Operand) (y : SigId) → IsOfKind Bounded Integer (seen_at instant y.0)
        → is_signal u || is_signal v ≡ true
        → (Meets Bounded memory instant (Fun y op (u ∷ v ∷ [])) ↔ AppliesToBoth (function_of op) (found_at instant u) (found_at instant v) (seen_at instant y.0)) }
    ensures delay { (memory : Memory) (instant : Instant) (x y : SigId) (init : ℤ)
        → (Meets Bounded memory instant (Delay y x init) ↔ (seen_at instant y.0 ≡ delayed (memory y.0 x.0 init) (seen_at instant x.0))) }
    ensures when { (memory : Memory) (instant : Instant) (x b y : SigId)
        → (Meets Bounded memory instant (When y x b) ↔ Combines Sampled (Signal (seen_at instant x.0)) (Signal (seen_at instant b.0)) (seen_at instant y.0)) }
    ensures constant_when { (memory : Memory) (instant : Instant) (constant : ℤ) (b y : SigId)
        → (Meets Bounded memory instant (WhenConst y constant b) ↔ Combines Sampled (Constant constant) (Signal (seen_at instant b.0)) (seen_at instant y.0)) }
    ensures unary_when { (memory : Memory) (instant : Instant) (b y : SigId)
        → (Meets Bounded memory instant (WhenConst y (pos 1) b) ↔ Changes WhenOf (Signal (seen_at instant b.0)) (seen_at instant y.0)) }
    ensures default { (memory : Memory) (instant : Instant) (u v y : SigId)
        → (Meets Bounded memory instant (Default y u v) ↔ Combines DefaultOf (Signal (seen_at instant u.0)) (Signal (seen_at instant v.0)) (seen_at instant y.0)) }
    ensures clock { (memory : Memory) (instant : Instant) (x y : SigId)
        → (Meets Bounded memory instant (Event y x) ↔ Changes Clock (Signal (seen_at instant x.0)) (seen_at instant y.0)) }
{}

/// A law: where an operator is several equations, an instant meets them exactly where the operator's
/// signal is there what the operator makes of its operands, and the intermediates are what their own
/// equations say.
pub fn derived_equations_mean_operators()
    ensures plus { (memory : Memory) (instant : Instant) (u v e f y : SigId)
        → (AreMet memory instant (Event e u ∷ Event f v ∷ Default y e f ∷ [])
        ↔ ((seen_at instant e.0 ≡ clock_of (seen_at instant u.0)) × (seen_at instant f.0 ≡ clock_of (seen_at instant v.0))
        × Combines Plus (Signal (seen_at instant u.0)) (Signal (seen_at instant v.0)) (seen_at instant y.0))) }
    ensures meet { (memory : Memory) (instant : Instant) (u v e f y : SigId)
        → (AreMet memory instant (Event e u ∷ Event f v ∷ When y e f ∷ [])
        ↔ ((seen_at instant e.0 ≡ clock_of (seen_at instant u.0)) × (seen_at instant f.0 ≡ clock_of (seen_at instant v.0))
        × Combines Meet (Signal (seen_at instant u.0)) (Signal (seen_at instant v.0)) (seen_at instant y.0))) }
    ensures less { (memory : Memory) (instant : Instant) (u v e f z w y : SigId)
        → (AreMet memory instant (Event e u ∷ Event f v ∷ Fun z Not (Sig f ∷ []) ∷ Default w z e ∷ WhenConst y (pos 1) w ∷ [])
        ↔ ((seen_at instant e.0 ≡ clock_of (seen_at instant u.0)) × (seen_at instant f.0 ≡ clock_of (seen_at instant v.0))
        × (seen_at instant z.0 ≡ where_present (seen_at instant v.0) (pos 0))
        × (seen_at instant w.0 ≡ merged (seen_at instant z.0) (seen_at instant e.0))
        × Combines Less (Signal (seen_at instant u.0)) (Signal (seen_at instant v.0)) (seen_at instant y.0))) }
    ensures cell { (memory : Memory) (instant : Instant) (x b z e w d y : SigId) (init : ℤ)
        → (AreMet memory instant (Delay z y init ∷ Default y x z ∷ Event e x ∷ WhenConst w (pos 1) b ∷ Default d e w ∷ Sync y d ∷ [])
        ↔ ((seen_at instant z.0 ≡ delayed (memory z.0 y.0 init) (seen_at instant y.0))
        × (seen_at instant e.0 ≡ clock_of (seen_at instant x.0))
        × (seen_at instant w.0 ≡ sampled (Some (pos 1)) (seen_at instant b.0))
        × (seen_at instant d.0 ≡ merged (seen_at instant e.0) (seen_at instant w.0))
        × (seen_at instant y.0 ≡ held (memory z.0 y.0 init) (seen_at instant x.0) (seen_at instant b.0)))) }
{}

/// A law: the equations of the kernel of a flat body whose equations name its signals name signals of
/// the kernel, and have one among their operands where each operator of the flat body has.
pub fn kernels_name_their_signals()
    ensures within { (flat : FlatBody) → NamesItsSignals flat
        → AllPass (λ (equation : Equation). form_within (length (kernel_of flat).signals) equation.form) (kernel_of flat).equations }
    ensures speak { (flat : FlatBody) → AllByRecursion EquationSpeaks flat.equations
        → AllPass (λ (equation : Equation). list_any is_signal (operands_of equation.form)) (kernel_of flat).equations }
{}

/// A law: where the inputs and the outputs of a flat body are among its signals, the parts of its
/// kernel are counted right, and the inputs are the same signals, unless a limit is passed.
pub fn kernels_have_their_parts()
    ensures parts { (flat : FlatBody) → flat.inputs + flat.outputs ≤ length flat.signals
        → length (kernel_of flat).signals ≤ SIGNALS → length (kernel_of flat).equations < 2 ^ 32 → HasParts (kernel_of flat) }
    ensures inputs { (flat : FlatBody) → flat.inputs ≤ length flat.signals → inputs_of (kernel_of flat) ≡ take flat.inputs flat.signals }
{}

/// A law: what holds at the place of each signal of a flat body, of each operator and of each whole
/// expression of its equations holds at the place of each signal and of each equation of its kernel.
pub fn kernels_keep_places()
    ensures { (holds : Span → Bool) (flat : FlatBody) → AtTakenOfBody (λ at. IsTrue (holds at)) flat
        → AtPlacesOfKernel (λ at. IsTrue (holds at)) (kernel_of flat) }
{}
