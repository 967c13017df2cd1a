//! What stands around the operations: the first values of the fields, the variables, and what is kept and given at the end.

ghost use Rattle.std.specs.Prelude.{◌≡◌, ◌<◌, ◌+◌, ◌++◌, ◌∷◌, [], None, OnOk, Some, codes, drop, length, map, take};
ghost use Rattle.std.specs.List.{enumerate_from, flat_map};
ghost use Rattle.sig_c.specs.SmallC.{Truth};
ghost use Rattle.sig_c.specs.File.{blanks};
ghost use Rattle.sig_c.specs.Layout.{gift_text};
ghost use Rattle.sig_c.specs.Written.{ignored_name, name_at, width_text};
ghost use Rattle.sig_c_step.specs.Translation.{outputs_in, value_given, width_of_kind};
ghost use Rattle.sig_c_write.specs.Given.{ignored_of, scope_in};
ghost use Rattle.sig_c_write.specs.inner.Frames.{first_line, next_variable, signal_line, unread_line};

use crate::names::StepNames;
use crate::operations::next_of;
use crate::pieces::{put_name, put_value};
use crate::unread::Unread;
use sig_base::{Kind, Text};
use sig_file::{Image, ImageMemory, ImageSignal};
use std::alloc::AllocError;

/// Appends the beginning of a line that gives a field a value.
fn put_field(text: &mut Vec<u8>, fields: &[Text], n: usize) -> Result<(), AllocError>
    ensures { OnOk result (text.new.items ≡ text.old.items ++ (codes "    state->" ++ (name_at fields.now n ++ codes " = "))) }
{
    text.extend_from_slice(b"    state->")?;
    put_name(text, fields, n)?;
    text.extend_from_slice(b" = ")
}

/// Appends the line that gives a field its first value.
fn put_first(
    text: &mut Vec<u8>,
    fields: &[Text],
    n: usize,
    memory: ImageMemory,
) -> Result<(), AllocError>
    ensures { OnOk result (text.new.items ≡ text.old.items ++ first_line fields.now (n, memory)) }
{
    put_field(text, fields, n)?;
    put_value(text, memory.init)?;
    text.extend_from_slice(b";\n")
}

/// Appends the lines that give the fields their first values.
pub(crate) fn put_firsts(
    text: &mut Vec<u8>,
    fields: &[Text],
    memories: &[ImageMemory],
) -> Result<(), AllocError>
    ensures { OnOk result (text.new.items ≡ text.old.items ++ flat_map (first_line fields.now) (enumerate_from 0 memories.now)) }
{
    for (n, memory) in memories.iter().enumerate() {
        put_first(text, fields, n, *memory)?;
    }
    Ok(())
}

/// The type of the values of a kind.
fn type_of(kind: Kind) -> &'static [u8]
    ensures { result.now ≡ width_text (width_of_kind kind) }
{
    match kind {
        Kind::Integer => b"int64_t",
        Kind::Boolean => b"int",
        Kind::Event => b"int",
    }
}

/// Appends the beginning of a declaration.
fn put_type(text: &mut Vec<u8>, width: &[u8]) -> Result<(), AllocError>
    ensures { OnOk result (text.new.items ≡ text.old.items ++ (codes "    " ++ (width.now ++ codes " "))) }
{
    text.extend_from_slice(b"    ")?;
    text.extend_from_slice(width)?;
    text.extend_from_slice(b" ")
}

/// Appends a variable that is 0 at first.
fn put_zero(
    text: &mut Vec<u8>,
    names: &StepNames,
    width: &[u8],
    number: usize,
) -> Result<(), AllocError>
    ensures { OnOk result (text.new.items ≡ text.old.items
        ++ ((codes "    " ++ (width.now ++ codes " ")) ++ (name_at names.now.variables number ++ codes " = 0;\n"))) }
{
    put_type(text, width)?;
    put_name(text, names.variables.as_slice(), number)?;
    text.extend_from_slice(b" = 0;\n")
}

/// Appends the variable of a signal.
fn put_signal(
    text: &mut Vec<u8>,
    names: &StepNames,
    n: usize,
    signal: &ImageSignal,
) -> Result<(), AllocError>
    ensures { OnOk result (text.new.items ≡ text.old.items ++ signal_line (scope_in names.now) (n, signal.now)) }
{
    put_zero(text, names, type_of(signal.kind), n)?;
    Ok(())
}

/// Appends the variables of signals.
pub(crate) fn put_signals(
    text: &mut Vec<u8>,
    names: &StepNames,
    signals: &[ImageSignal],
) -> Result<(), AllocError>
    ensures { OnOk result (text.new.items ≡ text.old.items ++ flat_map (signal_line (scope_in names.now)) (enumerate_from 0 signals.now)) }
{
    for (n, signal) in signals.iter().enumerate() {
        put_signal(text, names, n, signal)?;
    }
    Ok(())
}

/// Appends what a variable begins with, that begins with a field.
fn put_from_field(text: &mut Vec<u8>, names: &StepNames, n: u32) -> Result<(), AllocError>
    ensures { OnOk result (text.new.items ≡ text.old.items ++ (codes " = state->" ++ (name_at names.now.fields n ++ codes ";\n"))) }
{
    text.extend_from_slice(b" = state->")?;
    put_name(text, names.fields.as_slice(), n as usize)?;
    text.extend_from_slice(b";\n")
}

/// Appends the variable of a memory.
fn put_next(
    text: &mut Vec<u8>,
    image: &Image,
    names: &StepNames,
    n: u32,
    memory: ImageMemory,
) -> Result<(), AllocError>
    ensures { OnOk result (text.new.items ≡ text.old.items ++ next_variable image.now (scope_in names.now) (n, memory)) }
{
    put_type(text, type_of(memory.kind))?;
    put_name(text, names.variables.as_slice(), next_of(image, n))?;
    put_from_field(text, names, n)
}

/// Appends a line for a name that is not read.
fn put_unread(text: &mut Vec<u8>, names: &StepNames, unread: Unread) -> Result<(), AllocError>
    ensures { OnOk result (text.new.items ≡ text.old.items ++ unread_line (scope_in names.now) (ignored_of unread)) }
{
    text.extend_from_slice(b"    (void)")?;
    put_ignored(text, names, unread)?;
    text.extend_from_slice(b";\n")
}

/// Appends a name that is not read.
fn put_ignored(text: &mut Vec<u8>, names: &StepNames, unread: Unread) -> Result<(), AllocError>
    ensures { OnOk result (text.new.items ≡ text.old.items ++ ignored_name (scope_in names.now) (ignored_of unread)) }
{
    match unread {
        Unread::Variable(x) => put_name(text, names.variables.as_slice(), x as usize),
        Unread::State => text.extend_from_slice(b"state"),
        Unread::Context => text.extend_from_slice(b"context"),
    }
}
