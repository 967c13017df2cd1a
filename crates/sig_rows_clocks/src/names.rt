//! The names of functions in a store.

use sig_dd::Ref;
use std::alloc::AllocError;

/// The names of functions: the constants, and then the others, as they were made.
pub(crate) const NAMES: &str = "FTabcdefghijklmnopqrstuvwxyz";

/// Adds the names of functions; `?` of one that has none.
pub(crate) fn write_names(out: &mut String, refs: &[Ref], list: &[Ref]) -> Result<(), AllocError> {
    for f in list {
        let place = refs
            .iter()
            .position(|known| known == f)
            .unwrap_or(NAMES.len());
        out.push(NAMES.chars().nth(place).unwrap_or('?'))?;
    }
    Ok(())
}
