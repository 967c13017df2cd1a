//! The text of a hierarchy.

ghost use Rattle.std.specs.Prelude.{◌≡◌, ◌==◌, ◌++◌};
ghost use Rattle.sig_hier.specs.Prelude.{IfOk, OnOk, slice_index, flat_map};
ghost use Rattle.sig_hier.specs.Texts.{indent, line_text, members, name_at, names_text, others_text, text_of};

use crate::answer::TreeAnswer;
use crate::preorder::{Line, preorder};
use crate::trees::Tree;
use sig_base::Signal;
use sig_clock::Clocks;
use sig_kernel::Kernel;
use std::alloc::{AllocError, Global};

/// The text of the hierarchy of a kernel's clocks: the classes in preorder, children by number, a
/// line each with two blanks for each level and then the declared signals of the class by number,
/// or `-` where it has intermediates alone. Only memory can be wanting.
pub fn tree_text(
    alloc: Global,
    kernel: &Kernel,
    clocks: &Clocks,
    tree: &Tree,
) -> Result<Vec<u8>, TreeAnswer>
    ensures { IfOk result (λ text. text.items ≡ text_of kernel.now clocks.now tree.now) }
{
    let class_of = clocks.class_of.as_slice();
    let lines = preorder(alloc, tree.parent.as_slice())?;
    let mut text = Vec::new(alloc);
    for line in lines.as_slice() {
        write_line(alloc, &mut text, kernel, class_of, *line)?;
    }
    Ok(text)
}

/// Writes the line of a class.
fn write_line(
    alloc: Global,
    text: &mut Vec<u8>,
    kernel: &Kernel,
    class_of: &[u32],
    line: Line,
) -> Result<(), TreeAnswer>
    ensures { OnOk result (text.new.items ≡ text.old.items ++ line_text kernel.now class_of.now line) }
{
    write_indent(text, line.level)?;
    let members = members(alloc, kernel, class_of, line.class)?;
    write_names(text, kernel.signals.as_slice(), members.as_slice())?;
    text.push(b'\n')?;
    Ok(())
}

/// Writes two blanks for each level.
fn write_indent(text: &mut Vec<u8>, levels: usize) -> Result<(), AllocError>
    ensures { OnOk result (text.new.items ≡ text.old.items ++ indent levels) }
{
    for _level in 0..levels {
        text.extend_from_slice(b"  ")?;
    }
    Ok(())
}

/// The declared signals of a class, by number.
fn members(
    alloc: Global,
    kernel: &Kernel,
    class_of: &[u32],
    class: usize,
) -> Result<Vec<usize>, AllocError>
    ensures { IfOk result (λ signals. signals.items ≡ members kernel.now class_of.now class) }
{
    (0..kernel.declared as usize)
        .filter(|signal| is_of(class_of, *signal, class))
        .collect(alloc)
}

/// Whether a signal is of this class.
fn is_of(class_of: &[u32], signal: usize, class: usize) -> bool
    ensures { result ≡ (slice_index class_of.now signal == class) }
{
    let own = class_of.get(signal).copied().unwrap_or(0);
    own as usize == class
}

/// Writes the names of signals, separated by blanks, or `-` where there is none.
fn write_names(text: &mut Vec<u8>, signals: &[Signal], members: &[usize]) -> Result<(), AllocError>
    ensures { OnOk result (text.new.items ≡ text.old.items ++ names_text signals.now members.now) }
{
    match members.split_first() {
        Some((first, others)) => {
            write_name(text, signals, *first)?;
            write_others(text, signals, others)?;
        }
        None => text.push(b'-')?,
    }
    Ok(())
}

/// Writes a blank and the name of each signal.
fn write_others(text: &mut Vec<u8>, signals: &[Signal], others: &[usize]) -> Result<(), AllocError>
    ensures { OnOk result (text.new.items ≡ text.old.items ++ others_text signals.now others.now) }
{
    for other in others {
        text.push(b' ')?;
        write_name(text, signals, *other)?;
    }
    Ok(())
}

/// Writes the name of a signal.
fn write_name(text: &mut Vec<u8>, signals: &[Signal], signal: usize) -> Result<(), AllocError>
    ensures { OnOk result (text.new.items ≡ text.old.items ++ name_at signals.now signal) }
{
    match signals.get(signal) {
        Some(signal) => text.extend_from_slice(signal.name.as_bytes()),
        None => Ok(()),
    }
}
