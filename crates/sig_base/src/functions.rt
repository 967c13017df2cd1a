//! What holds of the functions of values.

ghost use Rattle.std.specs.Prelude.{◌≡◌, ◌↔◌, ℤ, pos, List, ◌∷◌, [], length};
ghost use Rattle.sig_base.specs.Traces.{Range, Bounded, Unbounded};
ghost use Rattle.sig_base.specs.Functions.{Function, Quotient, Remainder, Gives, operand_count};

/// A law: a function gives of operands at most one value; within 64 bits nothing is divided by 0.
pub fn functions_give_one_value()
    ensures one { (range : Range) (function : Function) (operands : List ℤ) (v w : ℤ)
        → Gives range function operands v → Gives range function operands w → v ≡ w }
    ensures divided { (a v : ℤ) → Gives Bounded Quotient (a ∷ pos 0 ∷ []) v → ⊥ }
    ensures left_over { (a v : ℤ) → Gives Bounded Remainder (a ∷ pos 0 ∷ []) v → ⊥ }
{}

/// A law: where every whole number is an integer, a function gives some value of as many operands as
/// it has, a quotient and a remainder by 0 are 0, and what is given within 64 bits is given too.
pub fn functions_give_values_without_bounds()
    ensures some { (function : Function) (operands : List ℤ) → length operands ≡ operand_count function
        → (v : ℤ) × Gives Unbounded function operands v }
    ensures quotient { (a v : ℤ) → Gives Unbounded Quotient (a ∷ pos 0 ∷ []) v ↔ (v ≡ pos 0) }
    ensures remainder { (a v : ℤ) → Gives Unbounded Remainder (a ∷ pos 0 ∷ []) v ↔ (v ≡ pos 0) }
    ensures bounded { (function : Function) (operands : List ℤ) (v : ℤ)
        → Gives Bounded function operands v → Gives Unbounded function operands v }
{}
