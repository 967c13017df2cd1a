//! The settling of a link.

ghost use Rattle.sig_link.specs.Ends.{OfOneLink, IsSettled};

use super::put::Put;
use super::rule::{OneHand, Whole};
use super::take::Take;
use std::sync::Wait;

/// What a settled link still held.
#[derive(Clone, Copy, Debug, PartialEq, Eq)]
pub struct Settled {
    /// How many items were sent and not taken.
    pub left: u32,
}

/// Ends the link. What was taken, followed by the items that are left, is what was sent.
pub fn settle<T: Drop, R: Wait>(rt: &R, put: Put<T>, take: Take<T>) -> Settled
    requires { OfOneLink put take }
    ensures { IsSettled put take result.left }
{
    let Put { line, mut pass, .. } = put;
    line.absorb::<OneHand>(&mut pass, take.pass);
    let left = line.len_as::<Whole, R>(rt, &mut pass);
    Settled { left: left as u32 }
}
