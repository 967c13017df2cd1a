//! Instructions in a row that are told by their opcodes.

ghost use Rattle.std.specs.Prelude.{◌≡◌, ◌<◌, ◌≤◌};
ghost use Rattle.sig_cells.specs.Prelude.{length};
ghost use Rattle.sig_cells.specs.Rows.{AreInstructions, GoesTo, Stops, listed};
ghost use Rattle.sig_cells.specs.Instants.{Keeps};
ghost use Rattle.sig_cells.specs.Instructions.{cell, cells_of};

use crate::instructions::Instructions;
use crate::quick::value_by;
use crate::works::do_one;
use sig_kernel::Inputs;

/// From how many instructions on a row is long.
const LONG: usize = 16;

/// The cell that was written last, at first the first one, and its value, which the next instruction often reads.
#[derive(Clone, Copy)]
struct Newest {
    cell: u32,
    value: i64,
}

impl Instructions {
    /// Does the instructions from a place up to another one, or to one that has no value, whatever their guards are, and gives
    /// the place that it comes to. It takes no memory.
    #[inline(always)]
    pub fn execute(
        &self,
        inputs: &Inputs,
        from: usize,
        to: usize,
        instant: u32,
        cells: &mut [i64],
        stamps: &mut [u32],
        taken: &mut [usize],
    ) -> usize
        requires code { AreInstructions (length taken.old) (length cells.old) self.now }
        requires stamps { length stamps.old ≡ length cells.old }
        requires forth { from ≤ to }
        requires within { to ≤ length (listed self.now) }
        ensures later { from ≤ result }
        ensures within { result ≤ to }
        ensures goes { GoesTo (listed self.now) inputs.now instant from result (cells_of cells.old stamps.old taken.old) (cells_of cells.new stamps.new taken.new) }
        ensures stops { result < to → Stops (listed self.now) inputs.now result (cells_of cells.new stamps.new taken.new) }
        ensures keeps { Keeps (listed self.now) instant (cells_of cells.old stamps.old taken.old) (cells_of cells.new stamps.new taken.new) }
    {
        if to - from >= LONG {
            return do_long(self, inputs, from, to, instant, cells, stamps, taken);
        }
        let coded = self.coded.as_slice();
        let mut left = to - from;
        while left > 0 {
            let one = coded[to - left];
            match value_by(one.opcode, cells[one.a as usize], cells[one.b as usize]) {
                Some(value) => {
                    cells[one.target as usize] = value;
                    stamps[one.target as usize] = instant;
                }
                None => {
                    let instruction = &self.listed[to - left];
                    if !do_one(instruction, inputs, instant, cells, stamps, taken) {
                        return to - left;
                    }
                }
            }
            left -= 1;
        }
        to
    }
}

/// Does the instructions of a long stretch, up to one that has no value, and gives the place that it comes to.
#[cold]
#[inline(never)]
fn do_long(
    all: &Instructions,
    inputs: &Inputs,
    from: usize,
    to: usize,
    instant: u32,
    cells: &mut [i64],
    stamps: &mut [u32],
    taken: &mut [usize],
) -> usize
    requires code { AreInstructions (length taken.old) (length cells.old) all.now }
    requires stamps { length stamps.old ≡ length cells.old }
    requires forth { from ≤ to }
    requires within { to ≤ length (listed all.now) }
    ensures later { from ≤ result }
    ensures within { result ≤ to }
    ensures goes { GoesTo (listed all.now) inputs.now instant from result (cells_of cells.old stamps.old taken.old) (cells_of cells.new stamps.new taken.new) }
    ensures stops { result < to → Stops (listed all.now) inputs.now result (cells_of cells.new stamps.new taken.new) }
    ensures keeps { Keeps (listed all.now) instant (cells_of cells.old stamps.old taken.old) (cells_of cells.new stamps.new taken.new) }
{
    let mut place = from;
    loop {
        place = do_row(all, inputs, place, to, instant, cells, stamps, taken);
        if place >= to {
            return to;
        }
        let instruction = &all.listed[place];
        if !do_one(instruction, inputs, instant, cells, stamps, taken) {
            return place;
        }
        place += 1;
    }
}

/// Does the instructions of a stretch from a place on, as long as their opcodes tell all, and gives the place before which it
/// stops.
#[inline(always)]
fn do_row(
    all: &Instructions,
    _inputs: &Inputs,
    from: usize,
    to: usize,
    instant: u32,
    cells: &mut [i64],
    stamps: &mut [u32],
    _taken: &[usize],
) -> usize
    requires code { AreInstructions (length _taken.now) (length cells.old) all.now }
    requires stamps { length stamps.old ≡ length cells.old }
    requires before { from ≤ to }
    requires within { to ≤ length (listed all.now) }
    ensures later { from ≤ result }
    ensures within { result ≤ to }
    ensures goes { GoesTo (listed all.now) _inputs.now instant from result (cells_of cells.old stamps.old _taken.now) (cells_of cells.new stamps.new _taken.now) }
    ensures keeps { Keeps (listed all.now) instant (cells_of cells.old stamps.old _taken.now) (cells_of cells.new stamps.new _taken.now) }
{
    let coded = all.coded.as_slice();
    let mut newest = Newest {
        cell: 0,
        value: first_value(cells),
    };
    let mut left = to - from;
    while left > 0 {
        let one = coded[to - left];
        let a = value_of(cells, newest, one.a);
        let b = cells[one.b as usize];
        match value_by(one.opcode, a, b) {
            Some(value) => {
                cells[one.target as usize] = value;
                stamps[one.target as usize] = instant;
                newest = Newest {
                    cell: one.target,
                    value,
                };
            }
            None => return to - left,
        }
        left -= 1;
    }
    to
}

/// The value of the first cell.
#[inline(always)]
fn first_value(cells: &[i64]) -> i64
    ensures { result ≡ cell cells.now 0 }
{
    match cells.first() {
        Some(value) => *value,
        None => 0,
    }
}

/// The value of a cell: there is no need to look for it where it is the one that was written last.
#[inline(always)]
fn value_of(cells: &[i64], newest: Newest, number: u32) -> i64
    requires within { number < length cells.now }
    requires newest { cell cells.now newest.cell ≡ newest.value }
    ensures { result ≡ cell cells.now number }
{
    if number == newest.cell {
        newest.value
    } else {
        cells[number as usize]
    }
}
