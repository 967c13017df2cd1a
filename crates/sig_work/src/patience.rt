//! How a thread waits that finds nothing to do.

use crate::neighbours::Neighbours;
use crate::share::Share;
use crate::spins::Spins;
use crate::turn::{Turn, spin};
use sig_halt::{Halt, Rest};
use sig_plan::Plan;
use std::sync::Wait;

/// Of so many threads each tells those that rest behind each second round in which it did something, of twice as many
/// behind each third, and of fewer behind each round.
const FEW_THREADS: usize = 4;

/// The waiting of a thread that finds nothing to do, one time after another.
#[derive(Drop)]
pub(crate) struct Patience<'a> {
    neighbours: Neighbours<'a>,
    /// Where the thread rests.
    bed: usize,
    /// How many actors it serves.
    actors: u32,
    /// How many turns of theirs found nothing to do, since something was done or the thread rested.
    turns: u32,
    spins: Spins,
    /// In how many rounds something was done, since others were told.
    moves: usize,
    rest: Option<Rest<'a>>,
    turn: Turn,
    /// Whether it has said that all actors that the thread serves have ended.
    left: bool,
}

impl<'a> Patience<'a> {
    /// That of the thread that serves these shares.
    pub(crate) fn new(plan: &'a Plan, halt: &'a Halt, shares: &[Share]) -> Patience<'a> {
        let neighbours = Neighbours { plan, halt };
        Patience {
            neighbours,
            bed: neighbours.bed_for(shares),
            actors: actors_of(shares),
            turns: 0,
            spins: Spins::new(halt.beds()),
            moves: 0,
            rest: None,
            turn: Turn::none(),
            left: false,
        }
    }

    /// Something was done, which may give threads that rest something to do: they are told, now and then where there
    /// are many. Where a link of the collector refused what is next, the thread waits its turn.
    pub(crate) fn renew(&mut self, shares: &[Share]) {
        if self.moves < self.neighbours.halt.beds() / FEW_THREADS {
            self.moves += 1;
        } else {
            self.tell();
        }
        self.spun();
        self.turns = 0;
        if let Some(instant) = self.neighbours.turn_of(shares) {
            self.turn.wait(instant);
        }
    }

    /// Where it found something to do while it spun, or had announced a rest, its spinning has helped.
    fn spun(&mut self) {
        let rest = self.rest.take();
        if self.turns > 0 || rest.is_some() {
            self.spins.help();
        }
        if let Some(rest) = rest {
            rest.give_up();
        }
    }

    /// Whether the service is over of these shares, whose actors have all ended: their ends hold no items, or all actors
    /// of all threads have ended, of which none takes any more.
    pub(crate) fn is_over(&mut self, shares: &[Share]) -> bool {
        if !self.left {
            self.left = true;
            self.neighbours.halt.leave(shares.len());
        }
        !shares.iter().any(|share| share.holds()) || self.neighbours.halt.all_left()
    }

    fn tell(&mut self) {
        self.moves = 0;
        self.neighbours.halt.tell();
    }

    /// Waits: it tells those that rest of all that was done before, and spins; then it announces a rest, and the next
    /// time it rests until another thread has done something for it. It never yields: beside other programs a yield
    /// may cost it a whole time slice.
    pub(crate) fn wait<R: Wait>(&mut self, rt: &R, shares: &[Share]) {
        self.tell();
        if self.turns < self.spins.limit() {
            spin(1);
            self.turns = self.turns.saturating_add(self.actors);
        } else {
            self.rest(rt, shares);
        }
    }

    /// Announces a rest, or rests where it is announced: its spinning has failed.
    fn rest<R: Wait>(&mut self, rt: &R, shares: &[Share]) {
        match self.rest.take() {
            Some(rest) => {
                rest.sleep(rt);
                self.turns = 0;
                self.spins.fail(self.neighbours.instant_of(shares));
            }
            None => {
                let link = self.neighbours.link_for(shares);
                self.rest = Some(self.neighbours.halt.rest_in(self.bed, link));
            }
        }
    }
}

/// How many actors these shares have.
fn actors_of(shares: &[Share]) -> u32 {
    let mut actors: u32 = 0;
    for share in shares {
        actors = actors.saturating_add(share.members.len().min(u32::MAX as usize) as u32);
    }
    actors
}
