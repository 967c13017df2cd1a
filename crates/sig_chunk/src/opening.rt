//! The making of a link.

ghost use Rattle.std.specs.Prelude.{◌≡◌, ◌≤◌, ◌+◌, ◌-◌, ◌*◌, [], IfOk};
ghost use Rattle.sig_chunk.specs.Ends.{put_capacity, sent, take_capacity, taken, times_empty, times_full, OfOneLink};

use crate::chunk::{Chunk, MOST_ITEMS};
use crate::inlet::Inlet;
use crate::outlet::Outlet;
use sig_link::{LinkAnswer, link};
use std::alloc::Global;

/// A chunk has at most this part of the items that a link holds.
const PART: u32 = 4;

/// What stands at an end that has taken no chunk: nothing of it is left.
const NOTHING: Chunk = Chunk {
    items: [0; MOST_ITEMS],
    count: 1,
};

/// An empty link that holds so many items at most, and its two ends. Of these at most `together` go through it
/// in one chunk, no more than a quarter of the capacity, and one at least. Only memory can be wanting; no later
/// call on the link takes any.
pub fn chunked(alloc: Global, capacity: u32, together: u32) -> Result<(Inlet, Outlet), LinkAnswer>
    requires { (1 ≤ capacity) × (capacity ≤ 65536) }
    ensures ends { IfOk result (λ ends. OfOneLink ends.0 ends.1 × (put_capacity ends.0 ≡ capacity)) }
    ensures room { IfOk result (λ ends. take_capacity ends.1 ≡ capacity) }
    ensures empty { IfOk result (λ ends. (sent ends.0 ≡ []) × (taken ends.1 ≡ [])) }
    ensures uncounted { IfOk result (λ ends. (times_full ends.0 ≡ 0) × (times_empty ends.1 ≡ 0)) }
{
    let size = size_of_chunks(capacity, together);
    let (put, take) = link(alloc, room_for_chunks(capacity, size))?;
    let inlet = Inlet {
        put,
        items: [0; MOST_ITEMS],
        count: 0,
        size,
        capacity,
    };
    let outlet = Outlet {
        take,
        opened: NOTHING,
        given: 1,
        capacity,
    };
    Ok((inlet, outlet))
}

/// How many items are a chunk.
fn size_of_chunks(capacity: u32, together: u32) -> u32
    requires { 1 ≤ capacity }
    ensures some { 1 ≤ result }
    ensures few { result ≤ 8 }
    ensures third { result + result + result ≤ capacity + 2 }
{
    together.min(MOST_ITEMS as u32).min(capacity / PART).max(1)
}

/// How many chunks the queue holds: as many as leave room for the items at both ends.
fn room_for_chunks(capacity: u32, size: u32) -> u32
    requires some { 1 ≤ size }
    requires few { size ≤ 8 }
    requires third { size + size + size ≤ capacity + 2 }
    ensures some { 1 ≤ result }
    ensures within { size * result + (size - 1) + (size - 1) ≤ capacity }
{
    (capacity - (size - 1) - (size - 1)) / size
}
