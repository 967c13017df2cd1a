//! The making of a link.

ghost use Rattle.std.specs.Prelude.{◌≡◌, ◌≤◌, [], IfOk};
ghost use Rattle.sig_link.specs.Ends.{put_capacity, sent, take_capacity, taken, times_empty, times_full, OfOneLink};
ghost use Rattle.sig_link.specs.declared.opening.LinkAnswer.TheVariants.{OutOfMemory};

use super::put::Put;
use super::rule::{Line, TwoEnds};
use super::take::Take;
use crossbeam_utils::CachePadded;
use std::alloc::{AllocError, Global};
use std::sync::Arc;
use thiserror::Error;

/// The refusal of [`link`].
#[derive(Clone, Copy, Debug, PartialEq, Eq, Error)]
pub enum LinkAnswer {
    /// Memory was wanting.
    #[error("out of memory")]
    OutOfMemory,
}

impl From<AllocError> for LinkAnswer {
    ghost from_gives = { λ _ answer. answer ≡ OutOfMemory };

    fn from(_error: AllocError) -> LinkAnswer {
        LinkAnswer::OutOfMemory
    }
}

/// An empty link that holds so many items at most, and its two ends. Only memory can be wanting; no
/// later call on the link takes any.
pub fn link<T: Drop>(alloc: Global, capacity: u32) -> Result<(Put<T>, Take<T>), LinkAnswer>
    requires { (1 ≤ capacity) × (capacity ≤ 65536) }
    ensures ends { IfOk result (λ ends. OfOneLink ends.0 ends.1 × (put_capacity ends.0 ≡ capacity)) }
    ensures room { IfOk result (λ ends. take_capacity ends.1 ≡ capacity) }
    ensures empty { IfOk result (λ ends. (sent ends.0 ≡ []) × (taken ends.1 ≡ [])) }
    ensures uncounted { IfOk result (λ ends. (times_full ends.0 ≡ 0) × (times_empty ends.1 ≡ 0)) }
{
    let (queue, mut putter) = Line::ruled(alloc, capacity as usize)?;
    let taker = queue.another::<TwoEnds>(&mut putter);
    let mine = Arc::new(alloc, CachePadded::new(queue)).map_err(AllocError::from)?;
    let theirs = Arc::try_clone(&mine)?;
    let put = Put {
        line: mine,
        pass: putter,
        times_full: 0,
    };
    let take = Take {
        line: theirs,
        pass: taker,
        times_empty: 0,
    };
    Ok((put, take))
}
