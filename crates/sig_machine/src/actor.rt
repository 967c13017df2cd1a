//! The machine of one actor.

ghost use Rattle.std.specs.Prelude.{◌≡◌, ◌+◌, ◌<◌, ◌≤◌, ◌^◌};
ghost use Rattle.sig_machine.specs.Prelude.{ℕ, ℤ, List, length, PlanView, at_next};
ghost use Rattle.sig_machine.specs.ActorMachines.{IsMachineOfActor, actor_in, instant_of, is_kept, last_in, seen_in, truths_in};
ghost use Rattle.sig_machine.specs.inner.Own.{AreKept};
ghost use Rattle.sig_machine.specs.inner.OnCells.{KeepsOwn};

use crate::machine::Machine;
use crate::own::{Own, greatest, least};
use crate::truths::forget;
use sig_base::SigId;
use sig_cells::Instructions;

/// What an actor of a plan has of each signal in the instant at which it is, what it remembers for each delay, and how
/// many values of each input it has read, with the instructions of its code. Of the conditions it keeps the truths, which
/// are false where a condition is absent.
#[derive(Drop)]
pub struct ActorMachine {
    pub(crate) machine: Machine,
    /// The signals that it writes.
    pub(crate) own: Own,
    /// The cells of these in the instant before.
    pub(crate) last: Vec<i64>,
    /// By step of the code; what stands at a step that does no operation is never followed.
    pub(crate) instructions: Instructions,
    /// By step, the next one from there on that writes a condition, or the number of steps.
    pub(crate) next_told: Vec<usize>,
    /// The variable that stands for each signal.
    pub(crate) variables: Vec<Option<usize>>,
    /// By variable.
    pub(crate) truths: Vec<bool>,
}

impl ActorMachine {
    /// The instant, from 1.
    #[inline(always)]
    pub fn instant(&self) -> u32
        ensures { result ≡ instant_of self.now }
    {
        self.machine.instant
    }

    /// What a signal is in this instant, as far as it was written.
    pub fn seen(&self, x: SigId) -> Option<i64>
        ensures { result ≡ seen_in self.now x.0 }
    {
        self.machine.seen(x)
    }

    /// What a signal was in the instant before.
    pub fn last_seen(&self, x: SigId) -> Option<i64>
        ensures { result ≡ last_in self.now x.0 }
    {
        let instant = self.machine.instant.saturating_sub(1);
        let cells = if self.keeps(x.0 as usize) {
            self.last.as_slice()
        } else {
            self.machine.cells.as_slice()
        };
        self.machine.seen_at(x, instant, cells)
    }

    /// Whether the cell of a signal is kept for the next instant.
    fn keeps(&self, signal: usize) -> bool
        ensures { result ≡ is_kept self.now signal }
    {
        signal < self.machine.cells.len() && signal < self.last.len() && self.own.has(signal)
    }

    /// The truths of the conditions.
    #[inline(always)]
    pub fn truths(&self) -> &[bool]
        ensures { result.now ≡ truths_in self.now }
    {
        self.truths.as_slice()
    }

    /// Goes to the next instant, in which no signal is written yet: the cells of those that the actor writes are cleared, and
    /// what was in them is kept as what they were last.
    pub fn next_instant(&mut self)
        requires { instant_of self.old + 1 < 2 ^ 32 }
        ensures actor { (plan : PlanView) (k : ℕ) (flows : List (List ℤ)) → IsMachineOfActor plan k flows self.old
            → (step : ℕ) → actor_in self.new 0 ≡ at_next (actor_in self.old step) }
        ensures last { last_in self.new ≡ seen_in self.old }
        ensures machine { (plan : PlanView) (k : ℕ) (flows : List (List ℤ)) → IsMachineOfActor plan k flows self.old
            → IsMachineOfActor plan k flows self.new }
    {
        self.keep_own();
        self.machine.instant += 1;
        forget(self.truths.as_mut_slice());
    }

    /// Keeps the cells of the signals that the actor writes, and clears them.
    #[inline(always)]
    fn keep_own(&mut self)
        ensures kept { KeepsOwn self.old self.new }
        ensures stays { self.new ≡ record self.old { machine = record self.old.machine { cells = self.new.machine.cells }; last = self.new.last } }
    {
        let own = self.own;
        let most = least(self.machine.cells.len(), self.last.len());
        let head = least(own.head, most);
        let first = greatest(own.head, own.first);
        let end = least(own.end, most);
        let cells = self.machine.cells.as_mut_slice();
        let last = self.last.as_mut_slice();
        keep_cells(cells, last, 0, head);
        keep_cells(cells, last, first, end);
    }
}

/// Keeps the cells from one on up to another one, and clears them.
fn keep_cells(cells: &mut [i64], last: &mut [i64], from: usize, to: usize)
    requires cells { to ≤ length cells.old }
    requires last { to ≤ length last.old }
    ensures { AreKept from to cells.old last.old cells.new last.new }
{
    for number in from..to {
        last[number] = cells[number];
        cells[number] = 0;
    }
}
