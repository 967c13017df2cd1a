//! A link of items that go through it by chunks: what an exchange between processors costs is shared by the
//! items of a chunk. It stands on sig_link, of which each link carries chunks, and on sig_base.
#![tactic(auto)]

mod chunk;
mod inlet;
mod opening;
mod outlet;
mod settling;

pub use chunk::{Chunk, MOST_ITEMS};
pub use inlet::Inlet;
pub use opening::chunked;
pub use outlet::Outlet;
pub use settling::settle;
