//! The truths of conditions.

ghost use Rattle.std.specs.Prelude.{◌≡◌, ◌≤◌, ◌<◌, ◌+◌};
ghost use Rattle.sig_machine.specs.Prelude.{ℕ, false, List, IfOk, None, Some, length, replicate, slice_get, SigId, is_one};
ghost use Rattle.sig_machine.specs.Machines.{cell};
ghost use Rattle.sig_machine.specs.inner.Truths.{AreDifferent, AreNextFrom, AreNextTold, AreToldBetween, AreVariables, AreWithin, IsNextTold, told_at};
ghost use Rattle.sig_cells.specs.Rows.{listed};
ghost use Rattle.sig_cells.specs.declared.instruction.Instruction.{Instruction};

use crate::actor::ActorMachine;
use sig_base::SigId;
use sig_cells::Instruction;
use std::alloc::{AllocError, Global};

impl ActorMachine {
    /// Keeps the truth of the value of a cell, where that is the cell of a condition.
    #[inline(always)]
    pub(crate) fn tell(&mut self, number: u32, value: i64)
        requires { (conditions : List SigId) × (signals : ℕ) × AreVariables conditions signals self.old.variables.items
            × (length self.old.truths.items ≡ length conditions) }
        ensures truths { self.new.truths.items ≡ told_at (slice_get self.old.variables.items number) (is_one value) self.old.truths.items }
        ensures stays { self.new ≡ record self.old { truths = self.new.truths } }
    {
        if let Some(Some(variable)) = self.variables.as_slice().get(number as usize) {
            self.truths[*variable] = is_one(value);
        }
    }

    /// Tells the truths of the conditions that instructions from a place up to another one write.
    #[inline(always)]
    pub(crate) fn tell_row(&mut self, from: usize, to: usize)
        requires table { (conditions : List SigId) × (signals : ℕ) × AreVariables conditions signals self.old.variables.items
            × (length self.old.truths.items ≡ length conditions) }
        requires next { AreNextTold (listed self.old.instructions) self.old.variables.items self.old.next_told.items }
        requires forth { from ≤ to }
        requires within { to ≤ length (listed self.old.instructions) }
        ensures told { AreToldBetween (listed self.old.instructions) self.old.variables.items self.old.machine.cells.items from to self.old.truths.items self.new.truths.items }
        ensures stays { self.new ≡ record self.old { truths = self.new.truths } }
    {
        let mut place = from;
        while place < to {
            place = self.tell_next(place, to);
        }
    }

    /// Tells the truth of the next condition that an instruction writes, from a place on and before another one, and gives the
    /// place behind it, or that other one.
    #[inline(always)]
    fn tell_next(&mut self, place: usize, to: usize) -> usize
        requires table { (conditions : List SigId) × (signals : ℕ) × AreVariables conditions signals self.old.variables.items
            × (length self.old.truths.items ≡ length conditions) }
        requires next { AreNextTold (listed self.old.instructions) self.old.variables.items self.old.next_told.items }
        requires before { place < to }
        requires within { to ≤ length (listed self.old.instructions) }
        ensures later { place < result }
        ensures within { result ≤ to }
        ensures told { AreToldBetween (listed self.old.instructions) self.old.variables.items self.old.machine.cells.items place result self.old.truths.items self.new.truths.items }
        ensures stays { self.new ≡ record self.old { truths = self.new.truths } }
    {
        let next = self.next_told[place];
        if next < to {
            self.tell_at(next);
            next + 1
        } else {
            to
        }
    }

    /// Tells the truth of the condition that the instruction of a place writes, where it writes one.
    #[inline(always)]
    fn tell_at(&mut self, place: usize)
        requires table { (conditions : List SigId) × (signals : ℕ) × AreVariables conditions signals self.old.variables.items
            × (length self.old.truths.items ≡ length conditions) }
        requires place { place < length (listed self.old.instructions) }
        ensures told { (instruction : Instruction) → slice_get (listed self.old.instructions) place ≡ Some instruction
            → self.new.truths.items ≡ told_at (slice_get self.old.variables.items instruction.target) (is_one (cell self.old.machine.cells.items instruction.target)) self.old.truths.items }
        ensures stays { self.new ≡ record self.old { truths = self.new.truths } }
    {
        let target = self.target_at(place);
        let value = self.value_of(target);
        self.tell(target, value);
    }

    /// The cell that the instruction of a place writes.
    #[inline(always)]
    fn target_at(&self, place: usize) -> u32
        requires { place < length (listed self.now.instructions) }
        ensures { (instruction : Instruction) → slice_get (listed self.now.instructions) place ≡ Some instruction → result ≡ instruction.target }
    {
        self.instructions.at(place).target
    }

    /// The value of a cell.
    #[inline(always)]
    fn value_of(&self, number: u32) -> i64
        ensures { result ≡ cell self.now.machine.cells.items number }
    {
        self.machine.cell(number as usize)
    }
}

/// Whether a value is the truth true.
#[inline(always)]
fn is_one(value: i64) -> bool
    ensures { result ≡ is_one value }
{
    value == 1
}

/// Makes all truths false.
pub(crate) fn forget(truths: &mut [bool])
    ensures { truths.new ≡ replicate (length truths.old) false }
{
    for i in 0..truths.len() {
        truths[i] = false;
    }
}

/// So many truths that are false.
pub(crate) fn falses(alloc: Global, count: usize) -> Result<Vec<bool>, AllocError>
    ensures { IfOk result (λ truths. truths.items ≡ replicate count false) }
{
    vec![in alloc; false; count]
}

/// The variable that stands for each of so many signals.
pub(crate) fn variables_of(
    alloc: Global,
    conditions: &[SigId],
    signals: usize,
) -> Result<Vec<Option<usize>>, AllocError>
    requires within { AreWithin signals conditions.now }
    requires differ { AreDifferent conditions.now }
    ensures { IfOk result (λ variables. AreVariables conditions.now signals variables.items) }
{
    let mut variables = no_variables(alloc, signals)?;
    for variable in 0..conditions.len() {
        variables[conditions[variable].0 as usize] = Some(variable);
    }
    Ok(variables)
}

/// No variable for each of so many signals.
fn no_variables(alloc: Global, signals: usize) -> Result<Vec<Option<usize>>, AllocError>
    ensures { IfOk result (λ variables. variables.items ≡ replicate signals None) }
{
    vec![in alloc; None; signals]
}

/// By place, the next one from there on whose instruction tells a truth, or the end.
pub(crate) fn next_told_of(
    alloc: Global,
    instructions: &[Instruction],
    variables: &[Option<usize>],
) -> Result<Vec<usize>, AllocError>
    ensures { IfOk result (λ next. AreNextTold instructions.now variables.now next.items) }
{
    let mut next = vec![in alloc; 0; instructions.len()]?;
    let mut left = instructions.len();
    while left > 0 {
        left -= 1;
        next[left] = next_from(instructions, variables, next.as_slice(), left);
    }
    Ok(next)
}

/// The next place from one on whose instruction tells a truth, where those behind that place have theirs.
fn next_from(
    instructions: &[Instruction],
    variables: &[Option<usize>],
    next: &[usize],
    place: usize,
) -> usize
    requires place { place < length instructions.now }
    requires count { length next.now ≡ length instructions.now }
    requires behind { AreNextFrom instructions.now variables.now next.now (place + 1) }
    ensures { IsNextTold instructions.now variables.now place result }
{
    if tells(variables, instructions[place].target) {
        place
    } else if place + 1 < next.len() {
        next[place + 1]
    } else {
        place + 1
    }
}

/// Whether a cell is that of a signal for which a table has a variable.
fn tells(variables: &[Option<usize>], number: u32) -> bool
    ensures { result ≡ false → (variable : ℕ) → slice_get variables.now number ≡ Some (Some variable) → ⊥ }
{
    matches!(variables.get(number as usize), Some(Some(_)))
}
