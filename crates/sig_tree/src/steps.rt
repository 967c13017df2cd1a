//! What holds of expressions and equations that are read one instant at a time.

ghost use Rattle.std.specs.Prelude.{◌≡◌, ◌++◌, ◌∷◌};
ghost use Rattle.sig_tree.specs.Prelude.{ℕ, suc, List, [], AllZip, Instant, Trace};
ghost use Rattle.sig_tree.specs.FlatSyntax.{FlatExpression, FlatEquation};
ghost use Rattle.sig_tree.specs.Meaning.{IsOperand};
ghost use Rattle.sig_tree.specs.Operators.{Operand};
ghost use Rattle.sig_tree.specs.ProcessTraces.{HoldsAt, HoldThroughout};
ghost use Rattle.sig_tree.specs.Steps.{Steps, EquationSteps, BodySteps, Leads, HoldsBehind};

use sig_base::functions_give_one_value;

/// A law: an expression steps at the first instant of a trace to what it is there, and to one thing
/// only; the expression behind that instant is over the rest what the first one is over the whole.
pub fn expressions_step()
    ensures first { (e : FlatExpression) (now : Instant) (t : Trace) (o : Operand) →
        IsOperand (now ∷ t) e 0 o → (next : FlatExpression) × Steps e now o next }
    ensures is { (e : FlatExpression) (now : Instant) (t : Trace) (o : Operand) (next : FlatExpression) →
        Steps e now o next → IsOperand (now ∷ t) e 0 o }
    ensures one { (e : FlatExpression) (now : Instant) (o p : Operand) (next other : FlatExpression) →
        Steps e now o next → Steps e now p other → o ≡ p }
    ensures behind { (e : FlatExpression) (now : Instant) (t : Trace) (o : Operand) (next : FlatExpression) →
        Steps e now o next → (i : ℕ) (p : Operand) → IsOperand (now ∷ t) e (suc i) p → IsOperand t next i p }
    ensures whole { (e : FlatExpression) (now : Instant) (t : Trace) (o : Operand) (next : FlatExpression) →
        Steps e now o next → (i : ℕ) (p : Operand) → IsOperand t next i p → IsOperand (now ∷ t) e (suc i) p }
{
    functions_give_one_value();
}

/// A law: the same of equations and where they hold.
pub fn equations_step()
    ensures first { (equation : FlatEquation) (now : Instant) (t : Trace) →
        HoldsAt (now ∷ t) 0 equation → (next : FlatEquation) × EquationSteps now equation next }
    ensures holds { (equation next : FlatEquation) (now : Instant) (t : Trace) →
        EquationSteps now equation next → HoldsAt (now ∷ t) 0 equation }
    ensures behind { (equation next : FlatEquation) (now : Instant) (t : Trace) →
        EquationSteps now equation next → (i : ℕ) → HoldsAt (now ∷ t) (suc i) equation → HoldsAt t i next }
    ensures whole { (equation next : FlatEquation) (now : Instant) (t : Trace) →
        EquationSteps now equation next → (i : ℕ) → HoldsAt t i next → HoldsAt (now ∷ t) (suc i) equation }
{
    functions_give_one_value();
}

/// A law: equations that are read over a trace, instant by instant, hold throughout it, and hold behind
/// it where those that they lead to hold.
pub fn traces_step()
    ensures leads { (equations : List FlatEquation) (t : Trace) →
        HoldThroughout equations t → (nexts : List FlatEquation) × Leads equations t nexts }
    ensures hold { (equations nexts : List FlatEquation) (t : Trace) → Leads equations t nexts → HoldThroughout equations t }
    ensures behind { (equations nexts : List FlatEquation) (front rest : Trace) →
        Leads equations front nexts → AllZip (HoldsBehind front rest) equations nexts }
    ensures more { (equations behind nexts : List FlatEquation) (front : Trace) (now : Instant) →
        Leads equations front behind → BodySteps now behind nexts → Leads equations (front ++ now ∷ []) nexts }
{
    functions_give_one_value();
}
