//! What holds of traces.

ghost use Rattle.std.specs.Prelude.{◌≡◌, ◌≤◌, ◌⊎◌, ◌↔◌, ℕ, ℤ, List, length, true};
ghost use Rattle.sig_base.specs.Traces.{Bounded, Fits, IsInteger, IsPrefixOf, NoneSilent, Trace, flow_of, has_64_bits, reduce};

/// A law: what is left of a trace without its silent instants has none, a trace that has none is its
/// own reduction, and two traces of which each is a prefix of the other are the same. So there is at
/// most one longest trace, whatever kind of trace is meant.
pub fn reduced_traces()
    ensures speaks { (t : Trace) → NoneSilent (reduce t) }
    ensures same { (t : Trace) → NoneSilent t → reduce t ≡ t }
    ensures prefixes { (t u : Trace) → IsPrefixOf t u → IsPrefixOf u t → t ≡ u }
{}

/// A law: silent instants give no values, so a trace fits the flows that its reduction fits.
pub fn flows_of_reduced_traces()
    ensures flow { (signal : ℕ) (t : Trace) → flow_of signal (reduce t) ≡ flow_of signal t }
    ensures fits { (flows : List (List ℤ)) (t : Trace) → Fits flows (reduce t) ↔ Fits flows t }
{}

/// A law: what begins the beginning of a trace begins it, of two beginnings one begins the other, and
/// what begins a trace has at most as many instants, fits the flows that it fits, and has no silent
/// instant where it has none.
pub fn prefixes_are_ordered()
    ensures transitive { (s t u : Trace) → IsPrefixOf s t → IsPrefixOf t u → IsPrefixOf s u }
    ensures total { (s t u : Trace) → IsPrefixOf s u → IsPrefixOf t u → IsPrefixOf s t ⊎ IsPrefixOf t s }
    ensures shorter { (s t : Trace) → IsPrefixOf s t → length s ≤ length t }
    ensures fits { (flows : List (List ℤ)) (s t : Trace) → IsPrefixOf s t → Fits flows t → Fits flows s }
    ensures speaks { (s t : Trace) → IsPrefixOf s t → NoneSilent t → NoneSilent s }
{}

/// A law: the integers of 64 bits are the numbers that pass the test.
pub fn integers_have_64_bits()
    ensures { (v : ℤ) → (has_64_bits v ≡ true) ↔ IsInteger Bounded v }
{}
