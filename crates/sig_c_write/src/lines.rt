//! Lines of a step that several operations have.

ghost use Rattle.std.specs.Prelude.{◌≡◌, ◌++◌, ◌∷◌, [], Some, None, OnOk, codes, length, pos};
ghost use Rattle.sig_file.specs.Images.{kind_at};
ghost use Rattle.sig_c.specs.SmallC.{Ask, Number, Set, Variable, more};
ghost use Rattle.sig_c.specs.Layout.{address_text, lines_text, refusal_text};
ghost use Rattle.sig_c.specs.Written.{name_at};
ghost use Rattle.sig_c_step.specs.Translation.{asking, comes, is_output, marking, one};
ghost use Rattle.sig_c_write.specs.Given.{scope_in};

use crate::names::StepNames;
use crate::pieces::{put_name, put_number, put_value};
use sig_base::{Kind, SigId};
use sig_file::Image;
use std::alloc::AllocError;

/// Appends the beginning of a line that gives a variable a value.
pub(crate) fn put_line_beginning(
    text: &mut Vec<u8>,
    margin: &[u8],
    names: &StepNames,
    target: usize,
) -> Result<(), AllocError>
    ensures { OnOk result (text.new.items ≡ text.old.items ++ (margin.now ++ (name_at names.now.variables target ++ codes " = "))) }
{
    text.extend_from_slice(margin)?;
    put_name(text, names.variables.as_slice(), target)?;
    text.extend_from_slice(b" = ")
}

/// Appends a line that gives a variable 1.
fn put_truth_line(
    text: &mut Vec<u8>,
    margin: &[u8],
    names: &StepNames,
    target: usize,
) -> Result<(), AllocError>
    ensures { OnOk result (text.new.items ≡ text.old.items ++ lines_text margin.now (scope_in names.now) (one (Set (Variable target) (Number (pos 1))))) }
{
    put_line_beginning(text, margin, names, target)?;
    put_value(text, 1)?;
    text.extend_from_slice(b";\n")
}

/// Whether a signal is an output.
fn is_output(image: &Image, x: SigId) -> bool
    ensures { result ≡ is_output image.now x.0 }
{
    image.inputs <= x.0 && u64::from(x.0) < u64::from(image.inputs) + u64::from(image.outputs)
}

/// The variable that says whether an output comes.
pub(crate) fn comes_of(image: &Image, output: u32) -> usize
    ensures { result ≡ comes image.now output }
{
    image.signals.len() + output as usize
}

/// Appends, where a signal is an output, a line that says that it comes.
pub(crate) fn put_marking(
    text: &mut Vec<u8>,
    margin: &[u8],
    image: &Image,
    names: &StepNames,
    x: SigId,
) -> Result<(), AllocError>
    ensures { OnOk result (text.new.items ≡ text.old.items ++ lines_text margin.now (scope_in names.now) (marking image.now x.0)) }
{
    if is_output(image, x) {
        put_truth_line(text, margin, names, comes_of(image, x.0 - image.inputs))
    } else {
        Ok(())
    }
}

/// Appends what ends a line with a call that may be refused with this number.
pub(crate) fn put_refusal(text: &mut Vec<u8>, code: u64) -> Result<(), AllocError>
    ensures { OnOk result (text.new.items ≡ text.old.items ++ (refusal_text code ++ codes "\n")) }
{
    text.extend_from_slice(b")) { return ")?;
    put_number(text, code)?;
    text.extend_from_slice(b"; }")?;
    text.extend_from_slice(b"\n")?;
    Ok(())
}

/// Appends the beginning of a line that asks an input.
fn put_question(
    text: &mut Vec<u8>,
    margin: &[u8],
    names: &StepNames,
    input: usize,
) -> Result<(), AllocError>
    ensures { OnOk result (text.new.items ≡ text.old.items ++ (margin.now ++ (codes "if (!" ++ (name_at names.now.inputs input ++ codes "(context")))) }
{
    text.extend_from_slice(margin)?;
    text.extend_from_slice(b"if (!")?;
    put_name(text, names.inputs.as_slice(), input)?;
    text.extend_from_slice(b"(context")
}

/// The kind of a signal.
fn kind_of(image: &Image, x: SigId) -> Option<Kind>
    ensures { result ≡ kind_at image.now.signals x.0 }
{
    match image.signals.as_slice().get(x.0 as usize) {
        Some(signal) => Some(signal.kind),
        None => None,
    }
}

/// Appends the lines by which an event takes its next value.
fn put_asking_event(
    text: &mut Vec<u8>,
    margin: &[u8],
    names: &StepNames,
    code: u64,
    x: usize,
) -> Result<(), AllocError>
    ensures { OnOk result (text.new.items ≡ text.old.items
        ++ lines_text margin.now (scope_in names.now) (more (Ask x None code) (one (Set (Variable x) (Number (pos 1)))))) }
{
    put_question(text, margin, names, x)?;
    put_refusal(text, code)?;
    put_truth_line(text, margin, names, x)
}

/// Appends the address of a variable.
pub(crate) fn put_address(text: &mut Vec<u8>, names: &StepNames, x: usize) -> Result<(), AllocError>
    ensures { OnOk result (text.new.items ≡ text.old.items ++ address_text (scope_in names.now) (Some x)) }
{
    text.extend_from_slice(b", &")?;
    put_name(text, names.variables.as_slice(), x)
}

/// Appends the line by which an input that is no event takes its next value.
fn put_asking_value(
    text: &mut Vec<u8>,
    margin: &[u8],
    names: &StepNames,
    code: u64,
    x: usize,
) -> Result<(), AllocError>
    ensures { OnOk result (text.new.items ≡ text.old.items ++ lines_text margin.now (scope_in names.now) (one (Ask x (Some x) code))) }
{
    put_question(text, margin, names, x)?;
    put_address(text, names, x)?;
    put_refusal(text, code)
}

/// Appends the lines by which an input takes its next value; an event takes 1.
pub(crate) fn put_asking(
    text: &mut Vec<u8>,
    margin: &[u8],
    image: &Image,
    names: &StepNames,
    code: u64,
    x: SigId,
) -> Result<(), AllocError>
    ensures { OnOk result (text.new.items ≡ text.old.items ++ lines_text margin.now (scope_in names.now) (asking x.0 code (kind_at image.now.signals x.0))) }
{
    let number = x.0 as usize;
    match kind_of(image, x) {
        Some(Kind::Event) => put_asking_event(text, margin, names, code, number),
        Some(Kind::Integer) => put_asking_value(text, margin, names, code, number),
        Some(Kind::Boolean) => put_asking_value(text, margin, names, code, number),
        None => put_asking_value(text, margin, names, code, number),
    }
}
