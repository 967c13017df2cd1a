//! Why a command is refused, with the line that says so.

ghost use Rattle.std.specs.Prelude.{◌≡◌, IfSome};
ghost use Rattle.sig_outcome.specs.Refusals.{IsOfProgram};

use std::alloc::{AllocError, Global};
use std::fmt;

/// Why a command's files give nothing.
#[derive(Debug, Drop)]
pub enum Refusal<'a> {
    /// The file of this name is not there.
    Missing(&'a str),
    /// The file of this name cannot be read, or could not be read to its end.
    ReadFault(&'a str),
    /// The program file has too many bytes.
    LongProgram,
    /// The bytes of the program file are refused with this line.
    Program(String),
    /// The diagrams of the program, or of the image, need more than this many nodes.
    Budget(u32),
    /// The links of the program would hold too many items.
    TooManyItems,
    /// The flow file, trace file or image file of this name has too many bytes.
    LongFile(&'a str),
    /// The bytes of the flow file, trace file or image file are refused with this line.
    Data(String),
    /// The image of the program would have too many bytes.
    LongImage,
    /// There is no memory for what the files say, or for the line that refuses them.
    OutOfMemory,
}

impl Refusal<'_> {
    ghost use Rattle.sig_outcome.specs.Refusals.{status_of};

    /// The status with which a refused command ends.
    pub fn status(&self) -> u8
        ensures { result ≡ status_of self.now }
    {
        match self {
            Refusal::LongProgram | Refusal::Program(_) => 1,
            Refusal::TooManyItems => 2,
            Refusal::LongFile(_) | Refusal::Data(_) => 4,
            Refusal::Missing(_) | Refusal::ReadFault(_) => 5,
            Refusal::OutOfMemory => 7,
            Refusal::Budget(_) => 8,
            Refusal::LongImage => 10,
        }
    }
}

/// The refusal of a program by an answer that is shown as its line, or want of memory for that line.
pub fn refused_program<'a, T: fmt::Display>(alloc: Global, answer: &T) -> Refusal<'a>
    ensures { IfSome (T.output answer.now) (λ text. IsOfProgram (λ line. line ≡ text) (λ _. ⊥) result) }
{
    match format!(in alloc; "{answer}") {
        Ok(line) => Refusal::Program(line),
        Err(AllocError) => Refusal::OutOfMemory,
    }
}
