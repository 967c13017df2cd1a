//! The guards of instructions.

ghost use Rattle.std.specs.Prelude.{◌≡◌, ◌<◌, ◌≤◌, if◌then◌else◌};
ghost use Rattle.sig_cells.specs.Prelude.{ℕ, length, Depends, Holds, is_true, test, truths_of};
ghost use Rattle.sig_cells.specs.Guards.{AreBelow, AsksAmong};
ghost use Rattle.sig_cells.specs.inner.Tests.{AsksWithin, both_hold, literal_holds, registers_seen, three_holds, truth_by};

use crate::test::{Literal, Test, Three};
use sig_base::SigId;
use sig_dd::{Node, Ref, Store};

/// The values of cells within an instant, as far as they were written.
#[derive(Clone, Copy)]
pub(crate) struct View<'a> {
    pub(crate) signals: usize,
    pub(crate) instant: u32,
    pub(crate) cells: &'a [i64],
    pub(crate) stamps: &'a [u32],
}

impl View<'_> {
    /// Whether the guard of a run is true, as a test or else a walk tells it.
    #[inline(always)]
    pub(crate) fn is_on(self, store: &Store, conditions: &[SigId], guard: Ref, how: &Test) -> bool
        requires cells { self.signals ≤ length self.cells.now }
        requires stamps { self.signals ≤ length self.stamps.now }
        requires held { Holds store.now.nodes guard }
        requires told { AsksAmong store.now.nodes conditions.now guard }
        requires below { AreBelow self.signals conditions.now }
        requires asks { AsksWithin self.signals how.now }
        ensures { result ≡ truth_by store.now.nodes conditions.now how.now guard (registers_seen self.entry) }
    {
        match how {
            Test::Always => true,
            Test::Is(x) => self.is_true(*x),
            Test::IsNot(x) => !self.is_true(*x),
            Test::Both(a, b) => self.both_hold(*a, *b),
            Test::NotBoth(a, b) => !self.both_hold(*a, *b),
            Test::Three(three) => self.three_hold(three),
            Test::Walk | Test::End => self.holds(store, conditions, guard),
        }
    }

    /// Whether a guard is true of the conditions.
    fn holds(self, store: &Store, conditions: &[SigId], guard: Ref) -> bool
        requires held { Holds store.now.nodes guard }
        requires told { AsksAmong store.now.nodes conditions.now guard }
        requires below { AreBelow self.signals conditions.now }
        requires cells { self.signals ≤ length self.cells.now }
        requires stamps { self.signals ≤ length self.stamps.now }
        ensures { result ≡ test store.now.nodes guard (truths_of conditions.now (registers_seen self.entry)) }
    {
        let mut r = guard;
        while let Some(node) = store.node(r) {
            let truth = self.is_true(conditions[node.variable as usize]);
            r = child(node, truth);
        }
        r == store.constant(true)
    }

    /// Whether a guard of three literals holds.
    #[inline(always)]
    fn three_hold(self, three: &Three) -> bool
        requires first { three.now.first.signal.0 < self.signals }
        requires second { three.now.second.signal.0 < self.signals }
        requires third { three.now.third.signal.0 < self.signals }
        requires cells { self.signals ≤ length self.cells.now }
        requires stamps { self.signals ≤ length self.stamps.now }
        ensures { result ≡ three_holds three.now (registers_seen self.entry) }
    {
        if self.literal_holds(three.first) {
            let both = self.both_hold(three.second, three.third);
            if three.both { both } else { !both }
        } else {
            three.otherwise
        }
    }

    /// Whether two literals hold.
    #[inline(always)]
    fn both_hold(self, a: Literal, b: Literal) -> bool
        requires first { a.signal.0 < self.signals }
        requires second { b.signal.0 < self.signals }
        requires cells { self.signals ≤ length self.cells.now }
        requires stamps { self.signals ≤ length self.stamps.now }
        ensures { result ≡ both_hold a b (registers_seen self.entry) }
    {
        self.literal_holds(a) && self.literal_holds(b)
    }

    /// Whether a literal holds.
    #[inline(always)]
    fn literal_holds(self, literal: Literal) -> bool
        requires within { literal.signal.0 < self.signals }
        requires cells { self.signals ≤ length self.cells.now }
        requires stamps { self.signals ≤ length self.stamps.now }
        ensures { result ≡ literal_holds literal (registers_seen self.entry) }
    {
        if literal.positive {
            self.is_true(literal.signal)
        } else {
            !self.is_true(literal.signal)
        }
    }

    /// Whether a signal is there and true.
    #[inline(always)]
    fn is_true(self, x: SigId) -> bool
        requires within { x.0 < self.signals }
        requires cells { self.signals ≤ length self.cells.now }
        requires stamps { self.signals ≤ length self.stamps.now }
        ensures { result ≡ is_true (registers_seen self.entry x.0) }
    {
        self.stamps[x.0 as usize] == self.instant && self.cells[x.0 as usize] == 1
    }
}

/// The function of a node where its variable has the truth.
fn child(node: Node, truth: bool) -> Ref
    ensures { result ≡ (if truth then node.high else node.low) }
{
    if truth { node.high } else { node.low }
}
