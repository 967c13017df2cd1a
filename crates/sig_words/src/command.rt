//! Commands.

use sig_base::Text;

/// How a run is made.
#[derive(Clone, Copy, Debug, PartialEq, Eq)]
pub struct Settings {
    /// The number of threads beside the caller's, from 0 to 64; 2 where none is given.
    pub workers: u32,
    /// The items of a link, from 1 to 65,536; 16 where none is given.
    pub capacity: u32,
    /// The most instants, from 1 to 1,000,000,000; 1,000,000 where none is given.
    pub instants: u32,
    /// Whether independent roots are paced.
    pub pace: bool,
}

/// A command, with the files that it names. The flag of `check`, `tree` and `code` is whether
/// independent roots are paced.
#[derive(Debug, PartialEq, Drop)]
pub enum Command {
    /// A program to be checked.
    Check(Text, bool),
    /// A program whose canonical text is wanted.
    Print(Text),
    /// A program whose clock hierarchy is wanted.
    Tree(Text, bool),
    /// A program whose step code is wanted.
    Code(Text, bool),
    /// A program and flows.
    Run(Text, Text, Settings),
    /// A program, flows and events.
    Play(Text, Text, Text, Settings),
    /// A seed, and the number of stages, from 1 to 12.
    Load(u64, u32, Settings),
    /// A program and a trace.
    Judge(Text, Text),
    /// A program whose image is wanted.
    Build(Text),
    /// An image and flows.
    Exec(Text, Text, Settings),
}
