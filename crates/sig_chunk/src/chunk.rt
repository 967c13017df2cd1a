//! Items that go through a link together.

ghost use Rattle.std.specs.Prelude.{◌≡◌, ◌≤◌, ◌<◌, pos, length, slice_index_or};

/// How many items a chunk has at most.
pub const MOST_ITEMS: usize = 8;

/// Items that go through a link together, oldest first: one at least.
#[derive(Clone, Copy, Debug)]
pub struct Chunk {
    pub(crate) items: [i64; MOST_ITEMS],
    pub(crate) count: u32,
    ghost some: { 1 ≤ count },
    ghost few: { count ≤ 8 },
}

impl Chunk {
    /// The item of a number, from 0.
    pub(crate) fn item(&self, number: u32) -> i64
        requires { number < self.now.count }
        ensures item { result ≡ slice_index_or self.now.items number (pos 0) }
        ensures fits { self.now.count ≤ length self.now.items }
    {
        self.items[number as usize]
    }
}
