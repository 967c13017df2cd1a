//! What the bytes of kinds stand for.

/// The kind of an operation.
#[derive(Clone, Copy)]
pub enum OpTag {
    Read,
    Fun,
    Copy,
    Const,
    DelayRead,
    Store,
}

/// The kind of an operand.
#[derive(Clone, Copy)]
pub enum OperandTag {
    Signal,
    Constant,
}
