//! Instructions under guards.

ghost use Rattle.std.specs.Prelude.{◌≡◌, ◌≤◌};
ghost use Rattle.sig_cells.specs.Prelude.{ℕ, IfOk, length};
ghost use Rattle.sig_cells.specs.Codes.{AreGuards, AreWithin, IsCode, guards_in, instructions_in};
ghost use Rattle.sig_cells.specs.Guards.{AreBelow, scope_of};

use crate::instruction::Instruction;
use crate::instructions::Instructions;
use crate::runs::runs_of;
use crate::stretches::{Run, Stretch, Ways};
use crate::ways::{first_of, ways_of};
use sig_base::SigId;
use sig_dd::{Ref, Store};
use std::alloc::{AllocError, Global};

/// Instructions over numbered cells in their order, each under a guard, over conditions that are signals: the cells of the
/// signals are the first ones.
#[derive(Drop)]
pub struct GuardedCode {
    pub(crate) signals: usize,
    pub(crate) conditions: Vec<SigId>,
    pub(crate) instructions: Instructions,
    pub(crate) runs: Vec<Run>,
    pub(crate) first: Stretch,
    pub(crate) ways: Vec<Ways>,
}

impl GuardedCode {
    /// These instructions under these guards, which are functions of a store over the conditions. Only memory can be wanting.
    pub fn new(
        alloc: Global,
        store: &Store,
        conditions: &[SigId],
        signals: usize,
        guards: &[Ref],
        instructions: Vec<Instruction>,
    ) -> Result<GuardedCode, AllocError>
        requires count { length guards.now ≡ length instructions.items }
        requires guards { AreGuards (scope_of store.now.nodes conditions.now signals) guards.now }
        requires below { AreBelow signals conditions.now }
        ensures signals { IfOk result (λ code. code.signals ≡ signals) }
        ensures conditions { IfOk result (λ code. code.conditions.items ≡ conditions.now) }
        ensures instructions { IfOk result (λ code. instructions_in code ≡ instructions.items) }
        ensures guards { IfOk result (λ code. guards_in code ≡ guards.now) }
        ensures code { IfOk result (λ code. (inputs cells : ℕ) → signals ≤ cells → AreWithin inputs cells instructions.items
            → IsCode store.now.nodes inputs cells code) }
    {
        let instructions = Instructions::new(alloc, instructions)?;
        let runs = runs_of(alloc, store, guards)?;
        let made = runs.as_slice();
        let first = first_of(store, conditions, signals, made);
        let ways = ways_of(alloc, store, conditions, signals, made)?;
        Ok(GuardedCode {
            signals,
            conditions: Vec::from_slice(alloc, conditions)?,
            instructions,
            runs,
            first,
            ways,
        })
    }
}
