//! What a round of turns came to.

ghost use Rattle.std.specs.Prelude.{◌≡◌};
ghost use Rattle.sig_work.specs.declared.round.Round.TheVariants.{Ended};

/// What the turns of some actors came to.
#[derive(Clone, Copy, Debug, PartialEq, Eq)]
pub(crate) enum Round {
    /// All have ended.
    Ended,
    /// None did a step.
    Still,
    /// Some did a step.
    Moved,
    /// One did a step, and then a link refused the next.
    Stuck,
}

impl Round {
    /// What a turn came to in which a link refused, and in which steps were done before or none was.
    pub(crate) fn of_refused(moved: bool) -> Round
        ensures { result ≡ Ended → ⊥ }
    {
        if moved { Round::Stuck } else { Round::Still }
    }

    /// Two rounds as one.
    pub(crate) fn and(self, other: Round) -> Round
        ensures { result ≡ Ended → (self ≡ Ended) × (other ≡ Ended) }
    {
        match (self, other) {
            (Round::Moved | Round::Stuck, _) | (_, Round::Moved | Round::Stuck) => Round::Moved,
            (Round::Still, _) | (_, Round::Still) => Round::Still,
            (Round::Ended, Round::Ended) => Round::Ended,
        }
    }
}
