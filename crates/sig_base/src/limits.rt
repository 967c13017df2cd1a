//! The limits of sigc: what passes one is refused by name.

/// The most bytes of a program.
pub const PROGRAM_BYTES: usize = 1_048_576;

/// The most brackets, nested processes and prefix operators inside one another.
pub const NESTING: u32 = 64;

/// The most operators of one equation.
pub const OPERATORS: u32 = 512;

/// The most signals of a program after its calls are expanded.
pub const SIGNALS: u32 = 512;

/// The greatest number of a cluster.
pub const CLUSTER_MAX: u32 = 63;

/// The most links of a program, those of reports included.
pub const LINKS: u32 = 4096;

/// The most nodes of a store of diagrams.
pub const NODES: u32 = 8_000_000;

/// The greatest capacity of a link, in items.
pub const CAPACITY_MAX: u32 = 65_536;

/// The capacity of a link where none is given.
pub const CAPACITY_DEFAULT: u32 = 16;

/// The most items of all links together: their number times their capacity.
pub const ITEMS: u32 = 16_777_216;

/// The most workers.
pub const WORKERS_MAX: u32 = 64;

/// The number of workers where none is given.
pub const WORKERS_DEFAULT: u32 = 2;

/// The greatest limit of instants.
pub const INSTANTS_MAX: u32 = 1_000_000_000;

/// The limit of instants where none is given.
pub const INSTANTS_DEFAULT: u32 = 1_000_000;

/// The most bytes of a flow file or an event file.
pub const FLOW_BYTES: usize = 67_108_864;

/// The most values of all flows together.
pub const VALUES: usize = 4_000_000;

/// The most events of an event file.
pub const EVENTS: usize = 1_000_000;
