//! Which signals were written, and for which proposals.

ghost use Rattle.std.specs.Prelude.{◌≡◌};
ghost use Rattle.sig_verify.specs.Prelude.{ℕ, OnOk, Some, false, get, nat_cmp, nat_eq};
ghost use Rattle.sig_verify.specs.inner.Asking.{AreOf, asked, is_written};
ghost use Rattle.sig_verify.specs.inner.Diagrams.{IsFor};

use crate::diagrams::Diagrams;
use crate::parts::condition_at;
use sig_base::SigId;
use sig_dd::Ref;
use sig_file::Image;
use std::alloc::AllocError;
use std::collections::BTreeMap;

/// For each signal that was written, by its number, the proposals at which it was.
pub(crate) type Written = BTreeMap<u32, Ref>;

/// The proposals at which a signal was written.
pub(crate) fn written_at(diagrams: &Diagrams, written: &Written, x: SigId) -> Ref
    requires { AreOf diagrams.now written.now }
    ensures { IsFor diagrams.now (is_written diagrams.now.store.nodes written.now x.0) result }
{
    match written.get(&x.0) {
        Some(r) => *r,
        None => diagrams.constant(false),
    }
}

/// The proposals at which the condition of a variable was written. For a variable that has none, there is nothing to write.
pub(crate) fn asked_at(diagrams: &Diagrams, image: &Image, written: &Written, v: u32) -> Ref
    requires { AreOf diagrams.now written.now }
    ensures { IsFor diagrams.now (asked diagrams.now image.now written.now v) result }
{
    match condition_at(image, v) {
        Some(x) => written_at(diagrams, written, x),
        None => diagrams.constant(true),
    }
}

/// Keeps a diagram under a number.
pub(crate) fn keep(table: &mut BTreeMap<u32, Ref>, n: u32, r: Ref) -> Result<(), AllocError>
    ensures here { OnOk result (get nat_cmp table.new n ≡ Some r) }
    ensures others { OnOk result ((x : ℕ) → nat_eq n x ≡ false → get nat_cmp table.new x ≡ get nat_cmp table.old x) }
{
    table.insert(n, r)?;
    Ok(())
}
