//! Instructions by their opcodes.

ghost use Rattle.std.specs.Prelude.{◌≡◌};
ghost use Rattle.sig_cells.specs.Prelude.{ℕ, IfOk, IfSome};
ghost use Rattle.sig_cells.specs.Opcodes.{AreCoded, IsCoded, work_of};
ghost use Rattle.sig_cells.specs.declared.instruction.Work.TheVariants.{One, Two};

use crate::instruction::{Instruction, Work};
use sig_kernel::FunOp;
use std::alloc::{AllocError, Global};

/// The copy or the function by which the value of an instruction is found at once, or `Other`, where the instruction itself has
/// to be read.
#[derive(Clone, Copy, Debug, PartialEq, Eq)]
pub(crate) enum Opcode {
    Other,
    Copy,
    Id,
    Not,
    And,
    Or,
    Xor,
    Eq,
    Ne,
    Lt,
    Le,
    Gt,
    Ge,
    Add,
    Sub,
    Mul,
}

/// An instruction by its opcode, the cells that it reads, and the cell that its value goes to.
#[derive(Clone, Copy, Debug, PartialEq, Eq)]
pub(crate) struct Coded {
    pub(crate) opcode: Opcode,
    pub(crate) a: u32,
    pub(crate) b: u32,
    pub(crate) target: u32,
}

/// Instructions by their opcodes.
pub(crate) fn all_coded(
    alloc: Global,
    instructions: &Vec<Instruction>,
) -> Result<Vec<Coded>, AllocError>
    ensures { IfOk result (λ coded. AreCoded instructions.now.items coded.items) }
{
    let mut coded = Vec::new(alloc);
    for place in 0..instructions.len() {
        let instruction = instructions[place];
        coded.push(coded_of(instruction))?;
    }
    Ok(coded)
}

/// An instruction by its opcode.
fn coded_of(instruction: Instruction) -> Coded
    ensures { IsCoded instruction result }
{
    let target = instruction.target;
    match instruction.work {
        Work::Next(_) => Coded {
            opcode: Opcode::Other,
            a: 0,
            b: 0,
            target,
        },
        Work::Copy(a) => Coded {
            opcode: Opcode::Copy,
            a,
            b: a,
            target,
        },
        Work::One(function, a) => Coded {
            opcode: opcode_of_one(function),
            a,
            b: a,
            target,
        },
        Work::Two(function, a, b) => Coded {
            opcode: opcode_of_two(function),
            a,
            b,
            target,
        },
    }
}

/// The opcode of a function of one value.
fn opcode_of_one(function: FunOp) -> Opcode
    ensures { (a b : ℕ) → IfSome (work_of result a b) (λ work. work ≡ One function a) }
{
    match function {
        FunOp::Id => Opcode::Id,
        FunOp::Not => Opcode::Not,
        _ => Opcode::Other,
    }
}

/// The opcode of a function of two values.
fn opcode_of_two(function: FunOp) -> Opcode
    ensures { (a b : ℕ) → IfSome (work_of result a b) (λ work. work ≡ Two function a b) }
{
    match function {
        FunOp::And => Opcode::And,
        FunOp::Or => Opcode::Or,
        FunOp::Xor => Opcode::Xor,
        FunOp::Eq => Opcode::Eq,
        FunOp::Ne => Opcode::Ne,
        FunOp::Lt => Opcode::Lt,
        FunOp::Le => Opcode::Le,
        FunOp::Gt => Opcode::Gt,
        FunOp::Ge => Opcode::Ge,
        FunOp::Add => Opcode::Add,
        FunOp::Sub => Opcode::Sub,
        FunOp::Mul => Opcode::Mul,
        FunOp::Id | FunOp::Neg | FunOp::Not | FunOp::Div | FunOp::Mod => Opcode::Other,
    }
}
