//! Trees, flat bodies and kernels of texts.

ghost use Rattle.std.specs.List.{IsDistinct};
ghost use Rattle.std.specs.Prelude.{bytes_eq, map, IfOk};
ghost use Rattle.sig_kernel.specs.Validity.{IsValid};
ghost use Rattle.sig_tree.specs.Grammar.{IsText};
ghost use Rattle.sig_tree.specs.Syntax.{program_of};

use anyhow::{Result, bail};
use sig_base::Text;
use sig_base::limits::PROGRAM_BYTES;
use sig_front::{flat, front, tree};
use sig_kernel::Kernel;
use sig_tree::{Flat, Program};
use std::alloc::Global;

/// The program of a text that is one.
pub fn read_program(alloc: Global, text: &[u8]) -> Result<Program>
    ensures { IfOk result (λ program. IsText text.now (program_of program)) }
{
    if text.len() > PROGRAM_BYTES {
        bail!("the text is too long");
    }
    Ok(tree(alloc, text)?)
}

/// The flat body of a text that has one.
pub fn flat_of(alloc: Global, text: &[u8]) -> Result<Flat>
    ensures { IfOk result (λ flat. IsDistinct bytes_eq (map (λ signal. signal.name) flat.signals.items)) }
{
    if text.len() > PROGRAM_BYTES {
        bail!("the text is too long");
    }
    Ok(flat(alloc, text)?)
}

/// The kernel of a text that has one.
pub fn kernel_of(alloc: Global, text: &[u8]) -> Result<Kernel>
    ensures { IfOk result IsValid }
{
    if text.len() > PROGRAM_BYTES {
        bail!("the text is too long");
    }
    Ok(front(alloc, text)?)
}

/// A name in writing.
pub fn written(text: &Text) -> &str {
    str::from_utf8(text.as_bytes()).unwrap_or("?")
}
