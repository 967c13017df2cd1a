//! What a step does not read.

/// A variable, by its number, or one of the two parameters of the step.
#[derive(Clone, Copy, Debug, PartialEq, Eq)]
pub enum Unread {
    Variable(u32),
    State,
    Context,
}
