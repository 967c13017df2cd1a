//! Instructions in a row that are done together.

use crate::test::Test;
use sig_dd::Ref;

/// The guard of the instruction at a place, the place up to which the instructions behind it have the same, and the one up to
/// which they are done only where that guard holds.
#[derive(Clone, Copy, Debug, PartialEq, Eq)]
pub(crate) struct Run {
    pub(crate) guard: Ref,
    pub(crate) end: usize,
    pub(crate) skip: usize,
}

/// A guard, and a truth that it has.
#[derive(Clone, Copy, Debug, PartialEq, Eq)]
pub(crate) struct Known {
    pub(crate) guard: Ref,
    pub(crate) truth: bool,
}

/// Instructions in a row that are all done, and where an instant goes on behind them: at the run of a place, with how its guard
/// is told there, or behind the last place.
#[derive(Clone, Copy, Debug, PartialEq, Eq)]
pub(crate) struct Stretch {
    pub(crate) from: usize,
    pub(crate) to: usize,
    pub(crate) place: usize,
    pub(crate) test: Test,
}

/// The guard of a run, and the stretch that is done from there on where it holds, and where it does not.
#[derive(Clone, Copy, Debug, PartialEq, Eq)]
pub(crate) struct Ways {
    pub(crate) guard: Ref,
    pub(crate) on: Stretch,
    pub(crate) off: Stretch,
}
