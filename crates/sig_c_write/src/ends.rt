//! The ends of operations, and the table of them.

ghost use Rattle.std.specs.Prelude.{◌≡◌, ◌≤◌, ◌<◌, ◌+◌, ◌^◌, ◌++◌, ◌∷◌, [], OnOk, codes, decimal, length, map, slice_get};
ghost use Rattle.std.specs.List.{flat_map, sum_by};
ghost use Rattle.sig_c.specs.File.{is_escaped};
ghost use Rattle.sig_c.specs.SmallC.{EndCause, Exhausted, Overflow, DivisionByZero};
ghost use Rattle.sig_c.specs.Written.{cause_text};
ghost use Rattle.sig_c_step.specs.Translation.{causes_of, function_causes, is_left_out, name_in, row_of, rows_of, subject_of};
ghost use Rattle.sig_c_write.specs.inner.Tables.{escaped_byte, next_row, op_rows, row_bytes, row_count};

use crate::pieces::put_number;
use sig_base::Text;
use sig_file::{Image, ImageOp, ImageOpKind};
use sig_kernel::FunOp;
use std::alloc::AllocError;

/// How many ends a function has.
fn function_ends(op: FunOp) -> u64
    ensures count { result ≡ length (function_causes op) }
    ensures few { result ≤ 2 }
{
    match op {
        FunOp::Id => 0,
        FunOp::Not => 0,
        FunOp::And => 0,
        FunOp::Or => 0,
        FunOp::Xor => 0,
        FunOp::Eq => 0,
        FunOp::Ne => 0,
        FunOp::Lt => 0,
        FunOp::Le => 0,
        FunOp::Gt => 0,
        FunOp::Ge => 0,
        FunOp::Neg => 1,
        FunOp::Add => 1,
        FunOp::Sub => 1,
        FunOp::Mul => 1,
        FunOp::Div => 2,
        FunOp::Mod => 1,
    }
}

/// How many ends an operation has.
pub(crate) fn ends_of(kind: &ImageOpKind) -> u64
    ensures count { result ≡ length (causes_of kind.now) }
    ensures few { result ≤ 2 }
{
    match kind {
        ImageOpKind::Read(_) => 1,
        ImageOpKind::Fun(_, op, _) => function_ends(*op),
        ImageOpKind::Copy(_, _) => 0,
        ImageOpKind::Const(_, _) => 0,
        ImageOpKind::DelayRead(_, _) => 0,
        ImageOpKind::Store(_, _) => 0,
    }
}

/// How many rows of the table an operation has.
fn rows_of(op: &ImageOp) -> u64
    ensures count { result ≡ row_count op.now }
    ensures few { result ≤ 2 }
{
    if op.guard == 0 { 0 } else { ends_of(&op.kind) }
}

/// How many rows of the table these operations have.
fn count_rows(ops: &[ImageOp]) -> u64
    requires few { length ops.now < 2 ^ 32 }
    ensures count { result ≡ sum_by row_count ops.now }
    ensures few { result ≤ length ops.now + length ops.now }
{
    let mut count = 0;
    for op in ops {
        count += rows_of(op);
    }
    count
}

/// The signal that an operation is about.
fn subject_of(kind: &ImageOpKind) -> u32
    ensures { result ≡ subject_of kind.now }
{
    match kind {
        ImageOpKind::Read(x) => x.0,
        ImageOpKind::Fun(y, _, _) => y.0,
        ImageOpKind::Copy(y, _) => y.0,
        ImageOpKind::Const(y, _) => y.0,
        ImageOpKind::DelayRead(y, _) => y.0,
        ImageOpKind::Store(_, x) => x.0,
    }
}

/// Appends the prefix and `_`.
pub(crate) fn put_prefix(text: &mut Vec<u8>, prefix: &Text) -> Result<(), AllocError>
    ensures { OnOk result (text.new.items ≡ text.old.items ++ (prefix.now ++ codes "_")) }
{
    text.extend_from_slice(prefix.as_bytes())?;
    text.extend_from_slice(b"_")
}

/// Whether a backslash stands before a byte.
fn is_escaped(byte: u8) -> bool
    ensures { result ≡ is_escaped byte }
{
    byte == b'"' || byte == b'\\' || byte == b'?'
}

/// Appends a byte of a string.
fn put_byte(text: &mut Vec<u8>, byte: u8) -> Result<(), AllocError>
    ensures { OnOk result (text.new.items ≡ text.old.items ++ escaped_byte byte) }
{
    if is_escaped(byte) {
        text.extend_from_slice(&[92, byte])
    } else {
        text.extend_from_slice(&[byte])
    }
}

/// Appends the bytes of a string.
fn put_escaped(text: &mut Vec<u8>, name: &[u8]) -> Result<(), AllocError>
    ensures { OnOk result (text.new.items ≡ text.old.items ++ flat_map escaped_byte name.now) }
{
    for byte in name {
        put_byte(text, *byte)?;
    }
    Ok(())
}

/// Appends a number behind a comma.
fn put_comma(text: &mut Vec<u8>, number: u32) -> Result<(), AllocError>
    ensures { OnOk result (text.new.items ≡ text.old.items ++ (codes ", " ++ decimal number)) }
{
    text.extend_from_slice(b", ")?;
    put_number(text, u64::from(number))
}

/// Appends a string behind a comma, and what ends a row.
fn put_quoted(text: &mut Vec<u8>, name: &[u8]) -> Result<(), AllocError>
    ensures { OnOk result (text.new.items ≡ text.old.items ++ (codes ", \"" ++ (flat_map escaped_byte name.now ++ codes "\"}"))) }
{
    text.extend_from_slice(b", \"")?;
    put_escaped(text, name)?;
    text.extend_from_slice(b"\"}")
}

/// Appends the cause that a row begins with.
fn put_cause(text: &mut Vec<u8>, prefix: &Text, cause: &[u8]) -> Result<(), AllocError>
    ensures { OnOk result (text.new.items ≡ text.old.items ++ (codes "    {" ++ ((prefix.now ++ codes "_") ++ cause.now))) }
{
    text.extend_from_slice(b"    {")?;
    put_prefix(text, prefix)?;
    text.extend_from_slice(cause)
}

/// Appends a row of the table, without the end of its line.
fn put_row(
    text: &mut Vec<u8>,
    prefix: &Text,
    cause: &[u8],
    line: u32,
    column: u32,
    name: &[u8],
) -> Result<(), AllocError>
    ensures { OnOk result (text.new.items ≡ text.old.items ++ row_bytes prefix.now cause.now line column name.now) }
{
    put_cause(text, prefix, cause)?;
    put_comma(text, line)?;
    put_comma(text, column)?;
    put_quoted(text, name)?;
    Ok(())
}

/// The name of the signal of a number.
fn name_of(image: &Image, number: u32) -> &[u8]
    ensures { result.now ≡ name_in (slice_get image.now.signals number) }
{
    match image.signals.as_slice().get(number as usize) {
        Some(signal) => signal.name.as_bytes(),
        None => b"",
    }
}

/// Appends what ends the row before, and the row of an end of an operation.
fn put_end(
    text: &mut Vec<u8>,
    prefix: &Text,
    image: &Image,
    op: &ImageOp,
    cause: &[u8],
) -> Result<(), AllocError>
    ensures { OnOk result (text.new.items ≡ text.old.items
        ++ (codes ",\n" ++ row_bytes prefix.now cause.now op.now.at.line op.now.at.col (name_in (slice_get image.now.signals (subject_of op.now.kind))))) }
{
    text.extend_from_slice(b",\n")?;
    let name = name_of(image, subject_of(&op.kind));
    put_row(text, prefix, cause, op.at.line, op.at.col, name)
}

/// Appends the rows of the ends of a function.
fn put_function_ends(
    text: &mut Vec<u8>,
    prefix: &Text,
    image: &Image,
    op: &ImageOp,
    function: FunOp,
) -> Result<(), AllocError>
    ensures { OnOk result (text.new.items ≡ text.old.items ++ flat_map (next_row prefix.now) (map (row_of image.now op.now) (function_causes function))) }
{
    match function {
        FunOp::Id => Ok(()),
        FunOp::Not => Ok(()),
        FunOp::And => Ok(()),
        FunOp::Or => Ok(()),
        FunOp::Xor => Ok(()),
        FunOp::Eq => Ok(()),
        FunOp::Ne => Ok(()),
        FunOp::Lt => Ok(()),
        FunOp::Le => Ok(()),
        FunOp::Gt => Ok(()),
        FunOp::Ge => Ok(()),
        FunOp::Neg => put_end(text, prefix, image, op, b"OVERFLOW"),
        FunOp::Add => put_end(text, prefix, image, op, b"OVERFLOW"),
        FunOp::Sub => put_end(text, prefix, image, op, b"OVERFLOW"),
        FunOp::Mul => put_end(text, prefix, image, op, b"OVERFLOW"),
        FunOp::Div => {
            put_end(text, prefix, image, op, b"DIVISION_BY_ZERO")?;
            put_end(text, prefix, image, op, b"OVERFLOW")
        }
        FunOp::Mod => put_end(text, prefix, image, op, b"DIVISION_BY_ZERO"),
    }
}

/// Appends the rows of the ends of what an operation does.
fn put_kind_ends(
    text: &mut Vec<u8>,
    prefix: &Text,
    image: &Image,
    op: &ImageOp,
) -> Result<(), AllocError>
    ensures { OnOk result (text.new.items ≡ text.old.items ++ flat_map (next_row prefix.now) (map (row_of image.now op.now) (causes_of op.now.kind))) }
{
    match &op.kind {
        ImageOpKind::Read(_) => put_end(text, prefix, image, op, b"EXHAUSTED"),
        ImageOpKind::Fun(_, function, _) => put_function_ends(text, prefix, image, op, *function),
        ImageOpKind::Copy(_, _) => Ok(()),
        ImageOpKind::Const(_, _) => Ok(()),
        ImageOpKind::DelayRead(_, _) => Ok(()),
        ImageOpKind::Store(_, _) => Ok(()),
    }
}

/// Appends the rows of an operation; one that is left out has none.
fn put_op_ends(
    text: &mut Vec<u8>,
    prefix: &Text,
    image: &Image,
    op: &ImageOp,
) -> Result<(), AllocError>
    ensures { OnOk result (text.new.items ≡ text.old.items ++ op_rows prefix.now image.now op.now) }
{
    if op.guard == 0 {
        Ok(())
    } else {
        put_kind_ends(text, prefix, image, op)
    }
}

/// Appends the rows of operations.
pub(crate) fn put_all_ends(
    text: &mut Vec<u8>,
    prefix: &Text,
    image: &Image,
    ops: &[ImageOp],
) -> Result<(), AllocError>
    ensures { OnOk result (text.new.items ≡ text.old.items ++ flat_map (op_rows prefix.now image.now) ops.now) }
{
    for op in ops {
        put_op_ends(text, prefix, image, op)?;
    }
    Ok(())
}
