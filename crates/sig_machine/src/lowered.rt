//! A plan as instructions.

use sig_cells::GuardedCode;

/// A plan as instructions under guards, one for each place of its order. The cells are those of its signals, then those of its
/// delays, by the signals that they define, then constants; here they have what they have at the opening.
#[derive(Drop)]
pub struct Lowered {
    pub(crate) signals: usize,
    pub(crate) code: GuardedCode,
    pub(crate) cells: Vec<i64>,
}
