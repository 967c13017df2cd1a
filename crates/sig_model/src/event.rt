//! Events of an interleaving.

/// What happens next: an actor does its next step, or it looks at the failure word.
#[derive(Clone, Copy, Debug, PartialEq, Eq)]
pub enum Event {
    Act(u32),
    Look(u32),
}
