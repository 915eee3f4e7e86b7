//! How large a trace or a schedule may be.

/// The most nodes of its tree.
pub const NODES: u32 = 128;

/// The most blocks.
pub const BLOCKS: u32 = 8;

/// The most hands.
pub const HANDS: u32 = 8;

/// The most associations that its scope may take.
pub const ASSOCIATIONS: u32 = 65_535;

/// The most entries.
pub const ENTRIES: usize = 10_000;

/// The most bytes of its text.
pub const FILE_BYTES: usize = 1_048_576;
