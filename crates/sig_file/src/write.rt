//! The bytes of images.

ghost use Rattle.std.specs.Prelude.{◌≡◌, ◌≢◌, ◌<◌, ◌^◌, ◌++◌, ◌∷◌};
ghost use Rattle.sig_file.specs.Prelude.{ℕ, All, Err, IfOk, OnOk, flat_map, length};
ghost use Rattle.sig_file.specs.Bytes.{HasFew, IsNamed, condition_bytes, count_bytes, field_bytes, function_number, image_bytes, kind_number, long_bytes, memory_bytes, node_bytes, number_bytes, op_bytes, op_number, operand_bytes, signal_bytes};

use crate::answer::FileAnswer;
use crate::counts::MAGIC;
use crate::images::{Image, ImageMemory, ImageNode, ImageOp, ImageOpKind, ImageSignal};
use sig_base::{Kind, SigId};
use sig_kernel::{FunOp, Operand};
use std::alloc::{AllocError, Global};

/// The number of a kind.
fn kind_number(kind: Kind) -> u8
    ensures { result ≡ kind_number kind }
{
    match kind {
        Kind::Integer => 0,
        Kind::Boolean => 1,
        Kind::Event => 2,
    }
}

/// The number of a function.
fn function_number(op: FunOp) -> u8
    ensures { result ≡ function_number op }
{
    match op {
        FunOp::Id => 0,
        FunOp::Neg => 1,
        FunOp::Not => 2,
        FunOp::And => 3,
        FunOp::Or => 4,
        FunOp::Xor => 5,
        FunOp::Eq => 6,
        FunOp::Ne => 7,
        FunOp::Lt => 8,
        FunOp::Le => 9,
        FunOp::Gt => 10,
        FunOp::Ge => 11,
        FunOp::Add => 12,
        FunOp::Sub => 13,
        FunOp::Mul => 14,
        FunOp::Div => 15,
        FunOp::Mod => 16,
    }
}

/// The number of what an operation does.
fn op_number(kind: &ImageOpKind) -> u8
    ensures { result ≡ op_number kind.now }
{
    match kind {
        ImageOpKind::Read(_) => 0,
        ImageOpKind::Fun(_, _, _) => 1,
        ImageOpKind::Copy(_, _) => 2,
        ImageOpKind::Const(_, _) => 3,
        ImageOpKind::DelayRead(_, _) => 4,
        ImageOpKind::Store(_, _) => 5,
    }
}

/// Adds a number of four bytes.
#[tactic(auto, unfolding(crate::specs::Bytes::number_bytes))]
fn put(out: &mut Vec<u8>, number: u32) -> Result<(), AllocError>
    ensures { OnOk result (out.new.items ≡ out.old.items ++ number_bytes number) }
{
    out.extend_from_slice(&number.to_be_bytes())
}

/// Adds a number of eight bytes.
#[tactic(auto, unfolding(crate::specs::Bytes::long_bytes))]
fn put_long(out: &mut Vec<u8>, number: i64) -> Result<(), AllocError>
    ensures { OnOk result (out.new.items ≡ out.old.items ++ long_bytes number) }
{
    out.extend_from_slice(&number.to_be_bytes())
}

/// Adds two numbers of four bytes.
fn put_two(out: &mut Vec<u8>, first: u32, second: u32) -> Result<(), AllocError>
    ensures { OnOk result (out.new.items ≡ out.old.items ++ number_bytes first ++ number_bytes second) }
{
    put(out, first)?;
    put(out, second)
}

fn put_signal(out: &mut Vec<u8>, signal: &ImageSignal) -> Result<(), AllocError>
    requires { IsNamed signal.now }
    ensures { OnOk result (out.new.items ≡ out.old.items ++ signal_bytes signal.now) }
{
    out.push(kind_number(signal.kind))?;
    put(out, signal.name.len() as u32)?;
    out.extend_from_slice(signal.name.as_bytes())
}

fn put_memory(out: &mut Vec<u8>, memory: &ImageMemory) -> Result<(), AllocError>
    ensures { OnOk result (out.new.items ≡ out.old.items ++ memory_bytes memory.now) }
{
    out.push(kind_number(memory.kind))?;
    put_long(out, memory.init)
}

fn put_node(out: &mut Vec<u8>, node: &ImageNode) -> Result<(), AllocError>
    ensures { OnOk result (out.new.items ≡ out.old.items ++ node_bytes node.now) }
{
    put(out, node.variable)?;
    put_two(out, node.low, node.high)
}

fn put_operand(out: &mut Vec<u8>, operand: Operand) -> Result<(), AllocError>
    ensures { OnOk result (out.new.items ≡ out.old.items ++ operand_bytes operand) }
{
    match operand {
        Operand::Sig(x) => {
            out.push(0)?;
            put(out, x.0)
        }
        Operand::Const(constant) => {
            out.push(1)?;
            put_long(out, constant)
        }
    }
}

fn put_operands(out: &mut Vec<u8>, operands: &[Operand]) -> Result<(), AllocError>
    ensures { OnOk result (out.new.items ≡ out.old.items ++ flat_map operand_bytes operands.now) }
{
    for operand in operands {
        put_operand(out, *operand)?;
    }
    Ok(())
}

fn put_function(
    out: &mut Vec<u8>,
    y: SigId,
    op: FunOp,
    operands: &[Operand],
) -> Result<(), AllocError>
    requires { length operands.now < 256 }
    ensures { OnOk result (out.new.items ≡ out.old.items ++ field_bytes (ImageOpKind.Fun y op operands.now)) }
{
    put(out, y.0)?;
    out.push(function_number(op))?;
    out.push(operands.len() as u8)?;
    put_operands(out, operands)
}

fn put_fields(out: &mut Vec<u8>, kind: &ImageOpKind) -> Result<(), AllocError>
    requires { HasFew kind.now }
    ensures { OnOk result (out.new.items ≡ out.old.items ++ field_bytes kind.now) }
{
    match kind {
        ImageOpKind::Read(x) => put(out, x.0),
        ImageOpKind::Fun(y, op, operands) => put_function(out, *y, *op, operands.as_slice()),
        ImageOpKind::Copy(y, x) => put_two(out, y.0, x.0),
        ImageOpKind::Const(y, value) => {
            put(out, y.0)?;
            put_long(out, *value)
        }
        ImageOpKind::DelayRead(y, m) => put_two(out, y.0, *m),
        ImageOpKind::Store(m, x) => put_two(out, *m, x.0),
    }
}

fn put_op(out: &mut Vec<u8>, op: &ImageOp) -> Result<(), AllocError>
    requires { HasFew op.now.kind }
    ensures { OnOk result (out.new.items ≡ out.old.items ++ op_bytes op.now) }
{
    out.push(op_number(&op.kind))?;
    put(out, op.guard)?;
    put_two(out, op.at.line, op.at.col)?;
    put_fields(out, &op.kind)
}

fn put_counts(out: &mut Vec<u8>, image: &Image) -> Result<(), AllocError>
    ensures { OnOk result (out.new.items ≡ out.old.items ++ count_bytes image.now) }
{
    put(out, image.signals.len() as u32)?;
    put_two(out, image.inputs, image.outputs)?;
    put_two(
        out,
        image.conditions.len() as u32,
        image.memories.len() as u32,
    )?;
    put_two(out, image.nodes.len() as u32, image.ops.len() as u32)
}

fn put_signals(out: &mut Vec<u8>, signals: &[ImageSignal]) -> Result<(), AllocError>
    requires { All IsNamed signals.now }
    ensures { OnOk result (out.new.items ≡ out.old.items ++ flat_map signal_bytes signals.now) }
{
    for signal in signals {
        put_signal(out, signal)?;
    }
    Ok(())
}

fn put_conditions(out: &mut Vec<u8>, conditions: &[SigId]) -> Result<(), AllocError>
    ensures { OnOk result (out.new.items ≡ out.old.items ++ flat_map condition_bytes conditions.now) }
{
    for condition in conditions {
        put(out, condition.0)?;
    }
    Ok(())
}

fn put_memories(out: &mut Vec<u8>, memories: &[ImageMemory]) -> Result<(), AllocError>
    ensures { OnOk result (out.new.items ≡ out.old.items ++ flat_map memory_bytes memories.now) }
{
    for memory in memories {
        put_memory(out, memory)?;
    }
    Ok(())
}

fn put_nodes(out: &mut Vec<u8>, nodes: &[ImageNode]) -> Result<(), AllocError>
    ensures { OnOk result (out.new.items ≡ out.old.items ++ flat_map node_bytes nodes.now) }
{
    for node in nodes {
        put_node(out, node)?;
    }
    Ok(())
}

fn put_ops(out: &mut Vec<u8>, ops: &[ImageOp]) -> Result<(), AllocError>
    requires { All (λ op. HasFew op.kind) ops.now }
    ensures { OnOk result (out.new.items ≡ out.old.items ++ flat_map op_bytes ops.now) }
{
    for op in ops {
        put_op(out, op)?;
    }
    Ok(())
}

/// The bytes of an image. Only memory can be wanting.
pub fn write_image(alloc: Global, image: &Image) -> Result<Vec<u8>, FileAnswer>
    ensures bytes { IfOk result (λ bytes. bytes.items ≡ image_bytes image.now) }
    ensures memory { (limit : ℕ) → result ≢ Err (FileAnswer.TooLong limit) }
{
    let mut out = Vec::from_slice(alloc, &MAGIC)?;
    put_counts(&mut out, image)?;
    put_signals(&mut out, &image.signals)?;
    put_conditions(&mut out, &image.conditions)?;
    put_memories(&mut out, &image.memories)?;
    put_nodes(&mut out, &image.nodes)?;
    put_ops(&mut out, &image.ops)?;
    Ok(out)
}
