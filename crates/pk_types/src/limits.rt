/// The most modules that a graph has.
pub const MAX_MODULES: usize = 32_768;

/// The most groups of modules that a bundle loads together.
pub const MAX_GROUPS: usize = 2_048;

/// The most chunks that a bundle has, without its entry chunks.
pub const MAX_CHUNKS: usize = 4_096;

/// The most bytes of a file that is read.
pub const MAX_FILE_LEN: u32 = 4_194_304;

/// The most bytes that the files of all modules have together.
pub const MAX_SOURCE_BYTES: u32 = 268_435_456;

/// The most bytes that all files of a bundle have together.
pub const MAX_OUTPUT_BYTES: u64 = 536_870_912;

/// The most calls that a running bundle makes, with that of its entry.
pub const MAX_CALLS: usize = 65_536;
