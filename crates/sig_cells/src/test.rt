//! How guards are told.

use sig_base::SigId;

/// A literal: a signal that is true, or one that is not.
#[derive(Clone, Copy, Debug, PartialEq, Eq)]
pub(crate) struct Literal {
    pub(crate) signal: SigId,
    pub(crate) positive: bool,
}

/// A guard of three literals: where the first one holds, it tells whether both others do, or whether not both do; and it has one
/// truth elsewhere.
#[derive(Clone, Copy, Debug, PartialEq, Eq)]
pub(crate) struct Three {
    pub(crate) first: Literal,
    pub(crate) second: Literal,
    pub(crate) third: Literal,
    pub(crate) both: bool,
    pub(crate) otherwise: bool,
}

/// How the guard of a run is told: it always holds, it is the truth of a signal, or that of its negation, or it holds where two
/// literals do, or unless both do, or three literals tell it, or a walk does; or there is no run any more.
#[derive(Clone, Copy, Debug, PartialEq, Eq)]
pub(crate) enum Test {
    Always,
    Is(SigId),
    IsNot(SigId),
    Both(Literal, Literal),
    NotBoth(Literal, Literal),
    Three(Three),
    Walk,
    End,
}
