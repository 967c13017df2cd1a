//! How often a thread that finds nothing to do asks again before it rests.

/// How many turns it takes at most, where that helped, and at least, where it did not; a turn is that of one actor.
const MANY_TURNS: u32 = 400;

const FEW_TURNS: u32 = 4;

/// Fewer threads than this take so many turns; of more each takes fewer, by the square of how many times as many.
const FEW_THREADS: u32 = 8;

/// How many threads there are at most.
const MANY_THREADS: usize = 64;

/// Behind how many rests a trial begins, where the one before paid, and where none did for long.
const FEW_RESTS: u32 = 64;

const MANY_RESTS: u32 = 4096;

/// How many times as many rests lie behind a trial in vain as before it.
const MORE_RESTS: u32 = 4;

/// How many instants are gained at most from one rest to the next, where spinning instead may help.
const FEW_GAINED: u32 = 2;

/// How often a thread spins, which depends on how often that helped.
#[derive(Drop)]
pub(crate) struct Spins {
    /// How many turns it takes in a row.
    limit: u32,
    /// How many it takes at most.
    most: u32,
    /// Whether it tries as many as that, having rested until now.
    tries: bool,
    /// How many rests are left until the next trial.
    rests: u32,
    /// How many rests lie before a trial.
    gap: u32,
    /// The instant of the last rest.
    instant: u32,
}

impl Spins {
    /// Those of one of so many threads that has not waited yet.
    pub(crate) fn new(threads: usize) -> Spins {
        let times = threads.min(MANY_THREADS) as u32 / FEW_THREADS;
        let most = MANY_TURNS / (1 + times * times);
        Spins {
            limit: most,
            most,
            tries: false,
            rests: FEW_RESTS,
            gap: FEW_RESTS,
            instant: 0,
        }
    }

    /// How many turns it takes in a row.
    pub(crate) fn limit(&self) -> u32 {
        self.limit
    }

    /// It found something to do while it spun: it spins for twice as long from now on.
    pub(crate) fn help(&mut self) {
        self.limit = self.most.min(self.limit.saturating_mul(2));
        if self.tries {
            self.tries = false;
            self.gap = FEW_RESTS;
            self.rests = FEW_RESTS;
        }
    }

    /// It rested, and comes to an instant: it spins for half as long from now on, or begins a trial.
    pub(crate) fn fail(&mut self, instant: u32) {
        let gained = instant.saturating_sub(self.instant);
        self.instant = instant;
        if self.tries {
            self.end_trial();
        } else if gained > FEW_GAINED {
            self.halve();
        } else if self.rests > 0 {
            self.rests -= 1;
            self.halve();
        } else {
            self.tries = true;
            self.limit = self.most;
        }
    }

    fn halve(&mut self) {
        self.limit = FEW_TURNS.max(self.limit / 2);
    }

    /// The trial was in vain: the next one comes behind more rests.
    fn end_trial(&mut self) {
        self.tries = false;
        self.gap = MANY_RESTS.min(self.gap.saturating_mul(MORE_RESTS));
        self.rests = self.gap;
        self.limit = FEW_TURNS;
    }
}
