//! Instructions.

use sig_kernel::FunOp;

/// What gives the value of an instruction: the next value of an input, the value of a cell, or a function of the values of
/// one or two cells.
#[derive(Clone, Copy, Debug, PartialEq, Eq)]
pub enum Work {
    Next(u32),
    Copy(u32),
    One(FunOp, u32),
    Two(FunOp, u32, u32),
}

/// An instruction: what gives its value, and the cell that the value goes to.
#[derive(Clone, Copy, Debug, PartialEq, Eq)]
pub struct Instruction {
    pub work: Work,
    pub target: u32,
}
