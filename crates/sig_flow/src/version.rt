//! Versions of flow files.

/// The version of a flow file. Only version 2 has words that repeat a value.
#[derive(Clone, Copy, Debug, PartialEq, Eq)]
pub enum Version {
    One,
    Two,
}
