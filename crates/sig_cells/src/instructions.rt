//! Instructions with their opcodes.

ghost use Rattle.std.specs.Prelude.{◌≡◌, ◌<◌};
ghost use Rattle.sig_cells.specs.Prelude.{ℕ, IfOk, Some, length, slice_get};
ghost use Rattle.sig_cells.specs.Rows.{AreInstructions, AreWithin, listed};

use crate::coded::{Coded, all_coded};
use crate::instruction::Instruction;
use std::alloc::{AllocError, Global};

/// Instructions in their order, each also by its opcode.
#[derive(Drop)]
pub struct Instructions {
    pub(crate) listed: Vec<Instruction>,
    pub(crate) coded: Vec<Coded>,
}

impl Instructions {
    /// These instructions. Only memory can be wanting.
    pub fn new(alloc: Global, instructions: Vec<Instruction>) -> Result<Instructions, AllocError>
        ensures listed { IfOk result (λ all. listed all ≡ instructions.items) }
        ensures within { IfOk result (λ all. (inputs cells : ℕ) → AreWithin inputs cells instructions.items → AreInstructions inputs cells all) }
    {
        let coded = all_coded(alloc, &instructions)?;
        Ok(Instructions {
            listed: instructions,
            coded,
        })
    }

    /// The instruction of a place.
    #[inline(always)]
    pub fn at(&self, place: usize) -> Instruction
        requires { place < length (listed self.now) }
        ensures { slice_get (listed self.now) place ≡ Some result }
    {
        self.listed[place]
    }
}
