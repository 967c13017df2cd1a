//! An image as instructions.

use crate::functions::Functions;
use sig_cells::GuardedCode;

/// The operations of an image as instructions under guards, in their order, with the store of their guards. The cells are those
/// of its signals, then those of its memories, then constants; here the memories have what they have at first.
#[derive(Drop)]
pub struct ImageInstructions {
    pub(crate) functions: Functions,
    pub(crate) code: GuardedCode,
    pub(crate) cells: Vec<i64>,
}
