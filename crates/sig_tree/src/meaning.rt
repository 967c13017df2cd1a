//! What holds of the meaning of expressions, and of the traces of a process.

ghost use Rattle.std.specs.Prelude.{◌≡◌, ◌≤◌, ◌++◌};
ghost use Rattle.sig_tree.specs.Prelude.{ℕ, ℤ, List, AllByRecursion, Seen, Trace, reduce, IsLongest};
ghost use Rattle.sig_tree.specs.Constants.{AreSignals};
ghost use Rattle.sig_tree.specs.FlatSyntax.{FlatExpression, FlatEquation, FlatBody};
ghost use Rattle.sig_tree.specs.Meaning.{Means, instant_at};
ghost use Rattle.sig_tree.specs.ProcessTraces.{HoldsAt, IsTraceOf, IsProcessTrace};

use sig_base::{functions_give_one_value, reduced_traces};

/// A law: an expression means at most one thing at an instant.
pub fn one_meaning()
    ensures { (e : FlatExpression) (trace : Trace) (i : ℕ) (v w : Seen) → Means e trace i v → Means e trace i w → v ≡ w }
{
    functions_give_one_value();
}

/// A law: what an expression means at an instant depends only on the trace up to there, and so does
/// whether an equation holds.
pub fn meaning_up_to_an_instant()
    ensures means { (e : FlatExpression) (t u : Trace) (i : ℕ) (v : Seen) →
        ((k : ℕ) → k ≤ i → instant_at t k ≡ instant_at u k) → Means e t i v → Means e u i v }
    ensures holds { (equation : FlatEquation) (t u : Trace) (i : ℕ) →
        ((k : ℕ) → k ≤ i → instant_at t k ≡ instant_at u k) → HoldsAt t i equation → HoldsAt u i equation }
{}

/// A law: what begins a trace of a process is one.
pub fn prefixes_of_traces()
    ensures { (flat : FlatBody) (t u : Trace) → IsProcessTrace flat (t ++ u) → IsProcessTrace flat t }
{}

/// A law: silent instants may be taken out of a trace of a process, and put in, where constants stand
/// only where they may.
pub fn silence_in_traces()
    ensures out { (flat : FlatBody) (t : Trace) → AllByRecursion AreSignals flat.equations →
        IsProcessTrace flat t → IsProcessTrace flat (reduce t) }
    ensures into { (flat : FlatBody) (t : Trace) → AllByRecursion AreSignals flat.equations →
        IsTraceOf flat.signals t → IsProcessTrace flat (reduce t) → IsProcessTrace flat t }
{
    functions_give_one_value();
}

/// A law: for flows and a limit of instants there is at most one longest trace of a process.
pub fn one_longest_trace()
    ensures { (flat : FlatBody) (flows : List (List ℤ)) (limit : ℕ) (t u : Trace) →
        IsLongest (IsProcessTrace flat) flows limit t → IsLongest (IsProcessTrace flat) flows limit u → t ≡ u }
{
    reduced_traces();
}
