//! The lines of one operation.

ghost use Rattle.std.specs.Prelude.{◌≡◌, ◌<◌, ◌^◌, ◌++◌, ◌∷◌, OnOk};
ghost use Rattle.sig_c.specs.SmallC.{Get, Number, Set, Variable};
ghost use Rattle.sig_c.specs.Layout.{lines_text};
ghost use Rattle.sig_c_step.specs.Translation.{computing, doing, joined, marking, next, one};
ghost use Rattle.sig_c_write.specs.Given.{scope_in};

use crate::functions::put_function;
use crate::lines::{put_asking, put_line_beginning, put_marking};
use crate::names::StepNames;
use crate::pieces::{put_name, put_value};
use sig_base::SigId;
use sig_file::{Image, ImageOpKind};
use sig_kernel::{FunOp, Operands};
use std::alloc::AllocError;

/// Appends the lines of what an operation does, whose first end has this number.
#[tactic(auto, using(crate::proofs::JoinedLines::lines_joined))]
pub(crate) fn put_operation(
    text: &mut Vec<u8>,
    margin: &[u8],
    image: &Image,
    names: &StepNames,
    code: u64,
    kind: &ImageOpKind,
) -> Result<(), AllocError>
    requires { code < 2 ^ 32 }
    ensures { OnOk result (text.new.items ≡ text.old.items ++ lines_text margin.now (scope_in names.now) (doing image.now code kind.now)) }
{
    match kind {
        ImageOpKind::Read(x) => {
            put_asking(text, margin, image, names, code, *x)?;
            put_marking(text, margin, image, names, *x)
        }
        ImageOpKind::Fun(y, op, operands) => {
            put_marked(text, margin, image, names, code, *y, *op, operands)
        }
        ImageOpKind::Copy(y, x) => {
            put_copy(text, margin, names, y.0 as usize, x.0 as usize)?;
            put_marking(text, margin, image, names, *y)
        }
        ImageOpKind::Const(y, value) => {
            put_constant(text, margin, names, *y, *value)?;
            put_marking(text, margin, image, names, *y)
        }
        ImageOpKind::DelayRead(y, memory) => {
            put_copy(text, margin, names, y.0 as usize, next_of(image, *memory))?;
            put_marking(text, margin, image, names, *y)
        }
        ImageOpKind::Store(memory, x) => {
            put_copy(text, margin, names, next_of(image, *memory), x.0 as usize)
        }
    }
}

/// Appends the lines of a function.
fn put_function_of(
    text: &mut Vec<u8>,
    margin: &[u8],
    names: &StepNames,
    code: u64,
    y: SigId,
    op: FunOp,
    operands: &Operands,
) -> Result<(), AllocError>
    requires { code < 2 ^ 32 }
    ensures { OnOk result (text.new.items ≡ text.old.items ++ lines_text margin.now (scope_in names.now) (computing y.0 code op operands.now)) }
{
    put_function(text, margin, names, code, y, op, operands.as_slice())
}

/// Appends the lines of a function, and where the signal is an output, the line that says that it comes.
fn put_marked(
    text: &mut Vec<u8>,
    margin: &[u8],
    image: &Image,
    names: &StepNames,
    code: u64,
    y: SigId,
    op: FunOp,
    operands: &Operands,
) -> Result<(), AllocError>
    requires { code < 2 ^ 32 }
    ensures { OnOk result (text.new.items ≡ text.old.items
        ++ lines_text margin.now (scope_in names.now) (joined (computing y.0 code op operands.now) (marking image.now y.0))) }
{
    put_function_of(text, margin, names, code, y, op, operands)?;
    put_marking(text, margin, image, names, y)?;
    Ok(())
}

/// The number of the variable of what a memory has next.
pub(crate) fn next_of(image: &Image, memory: u32) -> usize
    ensures { result ≡ next image.now memory }
{
    image.signals.len() + (image.outputs as usize + memory as usize)
}

/// Appends a line that gives a variable the value of another one.
fn put_copy(
    text: &mut Vec<u8>,
    margin: &[u8],
    names: &StepNames,
    target: usize,
    source: usize,
) -> Result<(), AllocError>
    ensures { OnOk result (text.new.items ≡ text.old.items ++ lines_text margin.now (scope_in names.now) (one (Set (Variable target) (Get (Variable source))))) }
{
    put_line_beginning(text, margin, names, target)?;
    put_name(text, names.variables.as_slice(), source)?;
    text.extend_from_slice(b";\n")
}

/// Appends a line that gives the variable of a signal a constant.
fn put_constant(
    text: &mut Vec<u8>,
    margin: &[u8],
    names: &StepNames,
    y: SigId,
    value: i64,
) -> Result<(), AllocError>
    ensures { OnOk result (text.new.items ≡ text.old.items ++ lines_text margin.now (scope_in names.now) (one (Set (Variable y.0) (Number value)))) }
{
    put_line_beginning(text, margin, names, y.0 as usize)?;
    put_value(text, value)?;
    text.extend_from_slice(b";\n")
}
