//! Where expressions are written.

ghost use Rattle.std.specs.Prelude.{◌≡◌, ◌++◌, codes, decimal, IfOk};

use itoa::Buffer;
use sig_base::{Span, Text};
use std::alloc::{AllocError, Global};
use std::marker::Model;

/// Where an expression is written: the cluster of its intermediates, and the prefix of their names.
#[derive(Drop)]
pub struct Site<'a> {
    pub cluster: u32,
    pub prefix: &'a Text,
}

impl<'a> Model for Site<'a> {
    ghost use Rattle.sig_flat.specs.KernelOf.{Site};

    ghost Value = { Site };

    ghost view = { λ site. record { cluster = site.cluster; prefix = site.prefix.now } };
}

impl<'a> Site<'a> {
    /// The name of an intermediate: the prefix, and the place of its operator as `#L:C`.
    pub fn name_at(&self, alloc: Global, at: Span) -> Result<Text, AllocError>
        ensures { IfOk result (λ name. name ≡ self.now.prefix ++ (codes "#" ++ (decimal at.line ++ (codes ":" ++ decimal at.col)))) }
    {
        let mut buffer = Buffer::new();
        let mut name = Vec::from_slice(alloc, self.prefix.as_bytes())?;
        name.extend_from_slice(b"#")?;
        name.extend_from_slice(buffer.format(at.line).as_bytes())?;
        name.extend_from_slice(b":")?;
        name.extend_from_slice(buffer.format(at.col).as_bytes())?;
        Ok(Text::from(name))
    }

    /// The cluster of the intermediates.
    pub fn cluster(&self) -> u32
        ensures { result ≡ self.now.cluster }
    {
        self.cluster
    }
}
