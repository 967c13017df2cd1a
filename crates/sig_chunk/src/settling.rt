//! The settling of a link.

ghost use Rattle.sig_chunk.specs.Ends.{OfOneLink, IsSettled};

use crate::inlet::Inlet;
use crate::outlet::Outlet;
use std::sync::Wait;

/// Ends the link. What was taken, followed by what is left at both ends and between them, is what was sent.
pub fn settle<R: Wait>(rt: &R, inlet: Inlet, outlet: Outlet)
    requires { OfOneLink inlet outlet }
    ensures { IsSettled inlet outlet }
{
    let Inlet { put, .. } = inlet;
    let Outlet { take, .. } = outlet;
    sig_link::settle(rt, put, take);
}
