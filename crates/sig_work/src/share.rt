//! What one thread serves.

use crate::member::Member;
use sig_halt::HaltSeat;

/// Some actors with the ends of their links, and one seat of the failure word. It may be moved to another
/// thread.
#[derive(Drop)]
pub struct Share {
    pub(crate) members: Vec<Member>,
    pub(crate) seat: HaltSeat,
}

impl Share {
    /// Whether the ends of some of its actors may hold items that they have not handed over.
    pub(crate) fn holds(&self) -> bool {
        self.members.iter().any(|member| member.ends.holds)
    }
}
