//! The limits of images.

/// The most bytes of an image.
pub const IMAGE_BYTES: usize = 67_108_864;

/// The most bytes of a signal's name.
pub const NAME_BYTES: u32 = 1_048_576;

/// The most conditions of an image.
pub const CONDITIONS: u32 = 512;

/// The most memories of an image.
pub const MEMORIES: u32 = 512;

/// The most operations of an image.
pub const OPERATIONS: u32 = 4096;

/// The most nodes whose bytes, 12 each, an image has room for.
pub const ROOM_FOR_NODES: usize = 5_592_405;
