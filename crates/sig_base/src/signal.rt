//! Signals of a program.

use crate::ids::Kind;
use crate::span::Span;
use crate::text::Text;

/// A signal: its name, the kind of its values, the number of its cluster and the place where it is
/// declared, or that of its operator where it is an intermediate one.
#[derive(Debug, Drop)]
pub struct Signal {
    pub name: Text,
    pub kind: Kind,
    pub cluster: u32,
    pub at: Span,
}
