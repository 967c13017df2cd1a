//! Numbers of signals, equations and operations, the kinds of values, and a full link's answer.

/// The number of a signal of a kernel, from 0.
#[derive(Clone, Copy, Debug, PartialEq, Eq, PartialOrd, Ord, Hash)]
pub struct SigId(pub u32);

/// The number of an equation of a kernel, from 0.
#[derive(Clone, Copy, Debug, PartialEq, Eq, PartialOrd, Ord, Hash)]
pub struct EqId(pub u32);

/// The number of an operation of a plan, from 0.
#[derive(Clone, Copy, Debug, PartialEq, Eq, PartialOrd, Ord, Hash)]
pub struct OpId(pub u32);

/// The values that a signal takes where it is present: 64-bit integers, truths, or only true.
#[derive(Clone, Copy, Debug, PartialEq, Eq, PartialOrd, Ord, Hash)]
pub enum Kind {
    Integer,
    Boolean,
    Event,
}

/// The answer of a link that has no room for an item.
#[derive(Clone, Copy, Debug, PartialEq, Eq)]
pub struct Full;
