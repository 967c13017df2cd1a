//! What operators that need no value make of what signals are.

ghost use Rattle.std.specs.Prelude.{◌≡◌};
ghost use Rattle.sig_judge.specs.Prelude.{both_of, clock_of, held, merged, sampled, without};
ghost use Rattle.sig_judge.specs.Rows.{seen_of};

use crate::trace::Seen;

/// The first one where the second is true.
pub fn sampled(x: Seen, truth: Seen) -> Seen
    ensures { seen_of result ≡ sampled (seen_of x) (seen_of truth) }
{
    match truth {
        Seen::Value(1) => x,
        _ => Seen::Absent,
    }
}

/// The first one where it is present, else the second.
pub fn merged(x: Seen, y: Seen) -> Seen
    ensures { seen_of result ≡ merged (seen_of x) (seen_of y) }
{
    match x {
        Seen::Absent => y,
        Seen::Value(_) => x,
    }
}

/// True where a signal is present.
pub fn clock_of(x: Seen) -> Seen
    ensures { seen_of result ≡ clock_of (seen_of x) }
{
    match x {
        Seen::Absent => Seen::Absent,
        Seen::Value(_) => Seen::Value(1),
    }
}

/// True where both are present.
pub fn both_of(x: Seen, y: Seen) -> Seen
    ensures { seen_of result ≡ both_of (seen_of x) (seen_of y) }
{
    match x {
        Seen::Absent => Seen::Absent,
        Seen::Value(_) => clock_of(y),
    }
}

/// True where the first is present and the second is not.
pub fn without(x: Seen, y: Seen) -> Seen
    ensures { seen_of result ≡ without (seen_of x) (seen_of y) }
{
    match y {
        Seen::Absent => clock_of(x),
        Seen::Value(_) => Seen::Absent,
    }
}

/// The first one where it is present, else the value that was held where the second is true.
pub fn held(previous: i64, x: Seen, truth: Seen) -> Seen
    ensures { seen_of result ≡ held previous (seen_of x) (seen_of truth) }
{
    match x {
        Seen::Absent => sampled(Seen::Value(previous), truth),
        Seen::Value(_) => x,
    }
}
