//! Why a program is not well formed.

ghost use Rattle.std.specs.Prelude.{◌≡◌};
ghost use Rattle.sig_type.specs.Prelude.{Some, WritesOnOk};
ghost use Rattle.sig_type.specs.Answers.{answer_line, shown};
ghost use Rattle.sig_type.specs.declared.answer.TypeAnswer.TheVariants.{OutOfMemory};

use sig_base::Span;
use sig_tree::Name;
use std::alloc::{AllocError, AllocFailed};
use std::error::Error;
use std::fmt;

/// The first rule that a program breaks, with the name or the place that is said of it, or want of
/// memory. It is shown as the line that names it, without its newline; a byte of a name is shown as
/// the character of its number, which for ASCII is the byte itself.
#[derive(Debug, Drop)]
pub enum TypeAnswer {
    /// The name is used and nothing declares it, or no process has it that is called.
    Unknown(Name),
    /// The name is declared before in the process, or an earlier process has it.
    DeclaredTwice(Name),
    /// The name is an input's or a parameter's, and is defined.
    InputDefined(Name),
    /// The name is defined before.
    DefinedTwice(Name),
    /// The name is an output's or a local's, and has no definition.
    Undefined(Name),
    /// A rule on kinds fails here.
    Clash(Span),
    /// A constant stands here where none may.
    BareConstant(Span),
    /// The numbers of constants, arguments or left sides are not the called process's; or several
    /// left sides have no call; or the first process has a parameter.
    BadCall(Name),
    /// The process of this name, which is called, reaches its caller by calls.
    Recursive(Name),
    /// A pragma names what is no signal of the process or is named before, or its label is no
    /// cluster's number.
    BadPragma(Span),
    /// A delay has no init.
    NoInit(Span),
    OutOfMemory,
}

impl fmt::Display for TypeAnswer {
    ghost output = { λ answer. Some (answer_line answer) };

    fn fmt<W: fmt::Write>(&self, f: &mut fmt::Formatter<W>) -> fmt::Result {
        match self {
            TypeAnswer::Unknown(name) => {
                write!(f, "error {}: unknown name {}", name.at, Shown { name })
            }
            TypeAnswer::DeclaredTwice(name) => {
                write!(f, "error {}: {} is declared twice", name.at, Shown { name })
            }
            TypeAnswer::InputDefined(name) => {
                write!(f, "error {}: input {} is defined", name.at, Shown { name })
            }
            TypeAnswer::DefinedTwice(name) => {
                write!(f, "error {}: {} is defined twice", name.at, Shown { name })
            }
            TypeAnswer::Undefined(name) => {
                write!(f, "error {}: {} is not defined", name.at, Shown { name })
            }
            TypeAnswer::Clash(at) => write!(f, "error {at}: types clash"),
            TypeAnswer::BareConstant(at) => write!(f, "error {at}: bare constant"),
            TypeAnswer::BadCall(name) => {
                write!(f, "error {}: bad call of {}", name.at, Shown { name })
            }
            TypeAnswer::Recursive(name) => {
                write!(f, "error {}: recursive call of {}", name.at, Shown { name })
            }
            TypeAnswer::BadPragma(at) => write!(f, "error {at}: bad pragma"),
            TypeAnswer::NoInit(at) => write!(f, "error {at}: delay without init"),
            TypeAnswer::OutOfMemory => write!(f, "error: out of memory"),
        }
    }
}

impl Error for TypeAnswer {}

/// The text of a name as it is shown.
#[derive(Drop)]
struct Shown<'a> {
    name: &'a Name,
}

impl fmt::Display for Shown<'_> {
    ghost output = { λ s. Some (shown s.name.now.text) };

    fn fmt<W: fmt::Write>(&self, f: &mut fmt::Formatter<W>) -> fmt::Result {
        for byte in self.name.text.as_bytes() {
            f.write_char(char::from(*byte))?;
        }
        Ok(())
    }
}

impl From<AllocError> for TypeAnswer {
    ghost from_gives = { λ _ answer. answer ≡ OutOfMemory };

    fn from(_wanting: AllocError) -> TypeAnswer {
        TypeAnswer::OutOfMemory
    }
}

impl<T: Drop> From<AllocFailed<T>> for TypeAnswer {
    ghost from_gives = { λ _ answer. answer ≡ OutOfMemory };

    fn from(_wanting: AllocFailed<T>) -> TypeAnswer {
        TypeAnswer::OutOfMemory
    }
}
